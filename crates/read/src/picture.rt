// Tests 25 and 26. The lowest place is searched for only if there is one; whether the fill is right is known from test 20's pass.
ghost use Rattle.std.specs.Prelude.{◌≡◌, Ok};
ghost use Rattle.span.specs.Format.{shape_of, streams};
ghost use Rattle.window.specs.Read.{picture_of};
ghost use Rattle.window.specs.Tests.{line_read};
ghost use Rattle.window.specs.Words.{word_at};
ghost use Rattle.window.specs.Inside.Fill.{fill_right};
ghost use Rattle.read_test21_26.specs.Inside.Verdict.{verdict_of, first_row};
ghost use Rattle.window.specs.Inside.Window.{IsWindow};
ghost use Rattle.read.specs.Inside.Picture.{picture_tests, wrong_place, right_picture};

use line::stream::StreamLine;
use read_test21_26::service::{Fault, Test};
use span::format::Format;

// Whether every word of the picture may be a sample's; on a blanking line any word may.
pub(crate) fn picture_is_right(f: Format, line: StreamLine, rows: &[u16]) -> bool
    ensures { result ≡ right_picture f line.0 rows.now }
{
    if line::stream::is_active(line) {
        return read_test21_26::picture::all_allowed(span::format::depth_of(f), rows);
    }
    true
}

// A test whose lowest place is searched for: it is a window, so there is an answer.
fn verdict_at(test: Test, f: Format, symbols: &[u16]) -> Result<(), Fault>
    requires { IsWindow f symbols.now }
    ensures { result ≡ verdict_of test (wrong_place test f symbols.now) (Ok tt) }
{
    match read_test21_26::call::lowest_place(test, f, symbols).unwrap() {
        Some(place) => Err(Fault { test, place }),
        None => Ok(()),
    }
}

// The first of the two that does not hold.
pub(crate) fn judge_picture(
    f: Format,
    symbols: &[u16],
    line: StreamLine,
    filled: bool,
    rows: &[u16],
) -> Result<(), Fault>
    requires window { IsWindow f symbols.now }
    requires line_value { line.0 ≡ line_read (streams (shape_of f)) (word_at (shape_of f) symbols.now) }
    requires filled_value { filled ≡ fill_right (shape_of f) symbols.now }
    requires rows_value { rows.now ≡ picture_of f symbols.now }
    ensures { result ≡ first_row (picture_tests f symbols.now) }
{
    if picture_is_right(f, line, rows) {
        if filled {
            return Ok(());
        }
        return verdict_at(Test::Fill, f, symbols);
    }
    verdict_at(Test::Sample, f, symbols)
}
