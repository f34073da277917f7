// A reader that holds the recording and its place, and gives one span at a time. `next_span` does the work; each function here is thin.
ghost use Rattle.std.specs.Prelude.{◌≡◌};
ghost use Rattle.recording.specs.Call.{paper_next};
ghost use Rattle.stepping.specs.Reader.{answer_of, moved_of, rows_after_step};

use recording::answer::{NextError, Spanned};
use span::format::Format;

// The recording, and the place from which the next step searches.
#[derive(Drop)]
pub struct Reader<'a> {
    symbols: &'a [u16],
    place: usize,
}

// A reader of a recording, at its beginning.
pub fn new<'a>(symbols: &'a [u16]) -> Reader<'a>
    ensures { result ≡ record { symbols = symbols.entry; place = 0 } }
{
    Reader { symbols, place: 0 }
}

// The reader's place.
pub fn place<'a>(r: Reader<'a>) -> usize
    ensures { result ≡ r.entry.place }
{
    r.place
}

// One step: the next span from the reader's place on, into rows of s x 1920 words, and the reader moves to that span's end. At the end, and
// if the call is refused, rows and place stay as they were.
pub fn step<'s, 'a, 'r>(
    r: &'s mut Reader<'a>,
    f: Format,
    rows: &'r mut [u16],
) -> Result<Option<Spanned>, NextError>
    ensures answer { paper_next result ≡ answer_of f r.old rows.old }
    ensures moved { r.new ≡ moved_of f r.old rows.old }
    ensures rows { rows.new ≡ rows_after_step f r.old rows.old }
{
    let next = finding::next::next_span(f, r.symbols, r.place, rows);
    r.place = next.after;
    next.answer
}
