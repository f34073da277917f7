// Recordings: finding a span, and the next span.
ghost use Rattle.std.specs.Prelude.{◌≡◌};
ghost use Rattle.face.specs.Calls.{find·answer, next·answer, next·rows};

use boundary::numbers::FormatNumbers;
use recording_answers::recordings::{FindAnswer, NextAnswer};

// The first span at or after a start: 1, 3, 5.
#[unsafe(no_mangle)]
pub extern "C" fn brazulint4_find(format: FormatNumbers, symbols: &[u16], start: u64) -> FindAnswer
    ensures { result ≡ find·answer format symbols.now start }
{
    let f = boundary::numbers::format_from(format);
    recording_answers::recordings::find_answer(finding::find::find(f, symbols, start as usize))
}

// The same span, into rows: 1, 3, 4, 5.
#[unsafe(no_mangle)]
pub extern "C" fn brazulint4_next(
    format: FormatNumbers,
    symbols: &[u16],
    start: u64,
    rows: &mut [u16],
) -> NextAnswer
    ensures answer { result ≡ next·answer format symbols.now start rows.old }
    ensures rows { rows.new ≡ next·rows format symbols.now start rows.old }
{
    let f = boundary::numbers::format_from(format);
    recording_answers::recordings::next_answer(finding::next::next_span(
        f,
        symbols,
        start as usize,
        rows,
    ))
}
