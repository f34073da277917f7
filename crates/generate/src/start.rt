// The start of what is written, and what is left after it; and the refusal.
ghost use Rattle.std.specs.Prelude.{◌≡◌, ◌≤◌, length};
ghost use Rattle.std.proofs.lemmas.List.Edits.{sets};
ghost use Rattle.io.specs.Counts.{IsPrefixLen};
ghost use Rattle.generate.specs.Generated.{refusal};
ghost use Rattle.generate.specs.Pieces.{file_start, all_of, nothing as none, left_of, Ready};

use crate::left::Left;
use crate::parameters::{Parameters, WantError, wanted_in};
use text::put::put_text;

// How many bytes it has, and what is left.
#[derive(Drop)]
pub(crate) struct Start {
    pub(crate) end: usize,
    pub(crate) left: Left,
}

// All spans of a recording, from the disparity before a fresh signal.
fn all_of(p: Parameters) -> Left
    ensures { result ≡ all_of p }
{
    Left {
        format: p.format,
        line: p.first,
        disparity: symbol::disparity::before_fresh_signal(),
        count: p.count,
    }
}

// Nothing is left to be written: a state like any other, and what a refused recording leaves, so no Option.
fn nothing() -> Left
    ensures { result ≡ none }
{
    Left {
        format: span::format::plain_format(0, 0),
        line: line::stream::stream_line(0),
        disparity: symbol::disparity::before_fresh_signal(),
        count: 0,
    }
}

// The format and depth bytes, or nothing where a recording is refused.
pub(crate) fn put_start(input: &[u8], out: &mut [u8]) -> Start
    requires { 2 ≤ length out.old }
    ensures counts { IsPrefixLen result.end out.new }
    ensures ready { Ready result.left }
    ensures end { result.end ≡ length (file_start input.now) }
    ensures left { result.left ≡ left_of input.now }
    ensures written { out.new ≡ sets out.old 0 (file_start input.now) }
{
    let Ok(p) = wanted_in(input) else {
        return Start {
            end: 0,
            left: nothing(),
        };
    };
    let end = put_text(&input[..2], out, 0);
    let left = all_of(p);
    Start { end, left }
}

// The refusal, or nothing where there is none.
pub(crate) fn put_refusal(input: &[u8], out: &mut [u8]) -> usize
    requires { 10 ≤ length out.old }
    ensures counts { IsPrefixLen result out.new }
    ensures end { result ≡ length (refusal input.now) }
    ensures written { out.new ≡ sets out.old 0 (refusal input.now) }
{
    match wanted_in(input) {
        Ok(_) => 0,
        Err(WantError::UnknownFormat) => put_text(b"refused 1\n", out, 0),
        Err(WantError::NoLine) => put_text(b"refused 2\n", out, 0),
        Err(WantError::WrongInput) => put_text(b"refused 3\n", out, 0),
    }
}
