// What the functions over a window are given.
ghost use Rattle.std.specs.Prelude.{◌≡◌};
ghost use Rattle.span.specs.Format.{streams};
ghost use Rattle.window.specs.Tests.{named};
ghost use Rattle.window.specs.Words.{word_at};
ghost use Rattle.window.specs.Inside.Given.{Given};
ghost use Rattle.read_test21_26.specs.Inside.Line.{line_in};

use crcc::sums::Sums;
use line::stream::StreamLine;
use span::format::{Format, Shape};
use word::line_number::NameError;

// A window: the decoding table, the shape of its format, and its symbols.
#[derive(Clone, Copy)]
pub(crate) struct Window<'a> {
    pub(crate) table: &'a [u16; 1024],
    pub(crate) shape: Shape,
    pub(crate) symbols: &'a [u16],
    pub(crate) ghost given: { Given shape table.now symbols.now },
}

// What the tests of its words are given: also its format, the line that stream 1 names, and the sums that its picture leaves.
#[derive(Clone, Copy)]
pub(crate) struct Tested<'a> {
    pub(crate) format: Format,
    pub(crate) window: Window<'a>,
    pub(crate) next: Result<StreamLine, NameError>,
    pub(crate) sums: Sums,
    pub(crate) ghost line_known: { line_in next ≡ named (streams window.shape) (word_at window.shape window.symbols.now) },
}
