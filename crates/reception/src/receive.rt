// Delivering a piece: find, read, find again, and put what each span brings at its line's place.
ghost use Rattle.std.specs.Prelude.{◌≡◌, ◌+◌, ◌≤◌, length};
ghost use Rattle.std.proofs.lemmas.List.Edits.{sets};
ghost use Rattle.recording.specs.Recording.{delivery_from};
ghost use Rattle.reception.specs.Link.{link};
ghost use Rattle.reception.specs.Receiving.{joined_row, brings, flag, put_one, heard_from, shown_from, receivable, flags_received, rows_received};

use line::stream::StreamLine;
use window::delivery::Delivery;

// Two streams of a span joined into a row of the picture, at a place.
fn put_row(rows: &[u16; 7680], t: usize, picture: &mut [u16], at: usize)
    requires t_bound { t ≤ 2 }
    requires at_in_bounds { at + 3840 ≤ length picture.old }
    ensures { picture.new ≡ sets picture.old at (joined_row t rows.now) }
{
    let first = 1920 * t;
    let second = first + 1920;
    let end = second + 1920;
    let past = at + 3840;
    // The lengths are those of a row and its images: nothing is refused.
    let _ = dividing::join::join(
        &rows[first..second],
        &rows[second..end],
        &mut picture[at..past],
    );
}

// What one span brings.
fn put_span(
    first: StreamLine,
    delivery: Delivery,
    rows: &[u16; 7680],
    heard: &mut [u16],
    picture: &mut [u16],
)
    requires first_bound { first.0 ≤ 1121 }
    requires heard_len { length heard.old ≡ 5 }
    requires picture_len { length picture.old ≡ 38400 }
    ensures heard { heard.new ≡ put_one 1 flag first.0 heard.old (record { values = delivery; words = rows.now }) }
    ensures picture { picture.new ≡ put_one 7680 brings first.0 picture.old (record { values = delivery; words = rows.now }) }
{
    let l = delivery.line;
    let n = line::stream::number_of(l);
    let m = line::stream::number_of(first);
    if ground::range::within(m, m + 4, n) {
        let k = (n - m) as usize;
        heard[k] = 1;
        if line::stream::is_active(l) {
            put_row(rows, 0, picture, 7680 * k);
            put_row(rows, 2, picture, 7680 * k + 3840);
        }
    }
}

// All spans, step by step from the beginning, each read into rows lent for it.
fn receive_all(
    first: StreamLine,
    symbols: &[u16],
    rows: &mut [u16; 7680],
    heard: &mut [u16],
    picture: &mut [u16],
)
    requires first_bound { first.0 ≤ 1121 }
    requires symbols_len_bound { length symbols.now ≤ 95040 }
    requires heard_len { length heard.old ≡ 5 }
    requires picture_len { length picture.old ≡ 38400 }
    ensures heard { heard.new ≡ heard_from first.0 heard.old (delivery_from link symbols.now 0) }
    ensures picture { picture.new ≡ shown_from first.0 picture.old (delivery_from link symbols.now 0) }
{
    let f = crate::link::link();
    let mut place = 0;
    // No `for`: where the next step begins, each step says.
    loop {
        let next = finding::next::next_span(f, symbols, place, rows);
        // None of these calls is refused.
        let Some(s) = next.answer.unwrap_or(None) else {
            return;
        };
        put_span(first, s.delivery, rows, heard, picture);
        place = next.after;
    }
}

// Whether there are five lines from the first on, no more symbols than they have, and room for what they bring.
fn is_ready(first: StreamLine, symbols: usize, heard: usize, picture: usize) -> bool
    ensures { result ≡ receivable first.0 symbols heard picture }
{
    line::stream::number_of(first) <= 1121 && symbols <= 95040 && heard == 5 && picture == 38400
}

// Takes the symbols of five lines as received, and the first line's number. Gives 1 for each line delivered, else 0; and ten rows of the
// picture, black where a line is not delivered and on blanking lines. Answers whether that was done: otherwise the lent memory is as it was.
pub fn receive(first: StreamLine, symbols: &[u16], heard: &mut [u16], picture: &mut [u16]) -> bool
    ensures done { result ≡ receivable first.0 (length symbols.now) (length heard.old) (length picture.old) }
    ensures heard { heard.new ≡ flags_received first.0 symbols.now heard.old (length picture.old) }
    ensures picture { picture.new ≡ rows_received first.0 symbols.now (length heard.old) picture.old }
{
    if is_ready(first, symbols.len(), heard.len(), picture.len()) {
        let mut rows = [0u16; 7680];
        heard.fill(0);
        picture.fill(0);
        receive_all(first, symbols, &mut rows, heard, picture);
        return true;
    }
    false
}
