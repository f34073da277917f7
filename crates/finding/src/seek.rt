// The search that both calls make.
ghost use Rattle.std.specs.Prelude.{◌≡◌, true, ◌+◌, ◌≤◌, length};
ghost use Rattle.span.specs.Format.{is_known, shape_of, samples_in, symbols_in};
ghost use Rattle.recording.specs.Call.{spanned, words_or};
ghost use Rattle.recording.specs.Recording.{next_from};
ghost use Rattle.recording.specs.Inside.Look.{Clear};
ghost use Rattle.ground.specs.Answer.{told};
ghost use Rattle.finding.specs.Inside.Seek.{read_at};

use recording::answer::Spanned;
use span::format::Format;

// A recording of a known format, and how many symbols its spans have.
#[derive(Clone, Copy)]
pub(crate) struct Recording<'a> {
    pub(crate) format: Format,
    pub(crate) symbols: &'a [u16],
    pub(crate) span: usize,
    pub(crate) ghost known: { is_known format ≡ true },
    pub(crate) ghost span_value: { span ≡ symbols_in (shape_of format) },
}

// The span at a place, if one is read there. Its picture is left in the search's own rows; if there is none, they may hold anything. The
// reader is asked only where K28.5 stands twice.
fn span_at(r: Recording, i: usize, rows: &mut [u16]) -> Option<Spanned>
    requires in_bounds { i + r.span ≤ length r.symbols.now }
    requires rows_len { length rows.old ≡ samples_in (shape_of r.format) }
    ensures answer { told result ≡ spanned (read_at r.entry.format r.entry.symbols.now i) }
    ensures rows { rows.new ≡ words_or rows.new (read_at r.entry.format r.entry.symbols.now i) }
{
    if !crate::look::begins(r.symbols, i) {
        return None;
    }
    match read::accept::accept(r.format, &r.symbols[i..i + r.span], rows) {
        Some(delivery) => Some(Spanned { place: i, delivery }),
        None => None,
    }
}

// The first span from a place on, with its picture in the search's own rows. Behind the first two symbols there, no K28.5 stands up to
// place `seen`. The rest of the window is looked over from its end. Where K28.5 stands in it, no span begins before the place before the
// last, and what follows is seen; where none does, the window is read if it begins with two, and no other begins in it. So each symbol is
// looked at once, and read at most once.
fn seek_on(r: Recording, from: usize, seen: usize, rows: &mut [u16]) -> Option<Spanned>
    requires from_in_bounds { from ≤ length r.symbols.now }
    requires from_bound { from + 2 ≤ seen }
    requires seen_bound { seen ≤ from + r.span }
    requires clear { Clear r.symbols.now (from + 2) seen }
    requires rows_len { length rows.old ≡ samples_in (shape_of r.format) }
    ensures answer { told result ≡ spanned (next_from r.entry.format r.entry.symbols.now from) }
    ensures rows { rows.new ≡ words_or rows.new (next_from r.entry.format r.entry.symbols.now from) }
{
    let mut i = from;
    let mut clear = seen;
    // No `for`: the place goes on by what was found.
    while r.span <= r.symbols.len() - i {
        let end = i + r.span;
        let k = crate::look::after_last(r.symbols, clear, end);
        if k == clear {
            if let Some(s) = span_at(r, i, rows) {
                return Some(s);
            }
            i = end;
            clear = end + 2;
        } else {
            i = k - 2;
            clear = end;
        }
    }
    None
}

// The first span at or after a start. The start itself is read at once: in a recording of spans one after another, the next one begins
// where the one before it ends.
pub(crate) fn seek(r: Recording, start: usize, rows: &mut [u16]) -> Option<Spanned>
    requires start_in_bounds { start ≤ length r.symbols.now }
    requires rows_len { length rows.old ≡ samples_in (shape_of r.format) }
    ensures answer { told result ≡ spanned (next_from r.entry.format r.entry.symbols.now start) }
    ensures rows { rows.new ≡ words_or rows.new (next_from r.entry.format r.entry.symbols.now start) }
{
    if r.symbols.len() - start < r.span {
        return None;
    }
    if let Some(s) = span_at(r, start, rows) {
        return Some(s);
    }
    let end = start + r.span;
    let k = crate::look::after_last(r.symbols, start + 2, end);
    if k == start + 2 {
        return seek_on(r, end, end + 2, rows);
    }
    seek_on(r, k - 2, end, rows)
}
