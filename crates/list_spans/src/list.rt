// The text printed for an input, put into a lent buffer.
ghost use Rattle.std.specs.Prelude.{◌≡◌, true, ◌+◌, ◌≤◌, length};
ghost use Rattle.std.proofs.lemmas.List.Edits.{sets};
ghost use Rattle.io.specs.Counts.{IsPrefixLen};
ghost use Rattle.span.specs.Format.{is_known, shape_of, samples_in};
ghost use Rattle.recording.specs.Recording.{delivery_from};
ghost use Rattle.list_spans.specs.Listing.{span_line, lines_of, most_symbols, recorded_in, span_listing};

use span::format::Format;

// The line of one span: its place and its line number, of at most 20 digits and 5.
fn put_line(place: usize, number: u16, out: &mut [u8], at: usize) -> usize
    requires { at + 27 ≤ length out.old }
    ensures end { result ≡ at + length (span_line place number) }
    ensures most { result ≤ at + 27 }
    ensures written { out.new ≡ sets out.old at (span_line place number) }
{
    let a = text::number::put_decimal(place as u64, out, at);
    let b = text::put::put_text(b" ", out, a);
    let c = text::number::put_decimal(number as u64, out, b);
    text::put::put_text(b"\n", out, c)
}

// The lines of all spans, step by step from the beginning. A line is shorter than a span, so the text never runs ahead of the place.
fn put_spans(f: Format, symbols: &[u16], rows: &mut [u16], out: &mut [u8]) -> usize
    requires f_value { is_known f ≡ true }
    requires symbols_len_bound { length symbols.now ≤ 32767 }
    requires rows_len { length rows.old ≡ samples_in (shape_of f) }
    requires in_bounds { 65536 ≤ length out.old }
    ensures end { result ≡ length (lines_of (delivery_from f symbols.now 0)) }
    ensures most { result ≤ 32767 }
    ensures written { out.new ≡ sets out.old 0 (lines_of (delivery_from f symbols.now 0)) }
{
    let mut place = 0;
    let mut at = 0;
    // No `for`: where the next step begins, each step says.
    loop {
        let next = finding::next::next_span(f, symbols, place, rows);
        // None of these calls is refused.
        let Some(s) = next.answer.unwrap_or(None) else {
            return at;
        };
        let number = line::stream::number_of(s.delivery.line);
        at = put_line(s.place, number, out, at);
        place = next.after;
    }
}

// The lines of a recording: its bytes are read into lent symbols.
fn put_recording(
    f: Format,
    bytes: &[u8],
    symbols: &mut [u16],
    rows: &mut [u16],
    out: &mut [u8],
) -> usize
    requires f_value { is_known f ≡ true }
    requires symbols_len { length symbols.old ≡ most_symbols }
    requires rows_len { length rows.old ≡ 7680 }
    requires in_bounds { 65536 ≤ length out.old }
    ensures end { result ≡ length (lines_of (delivery_from f (recorded_in bytes.now) 0)) }
    ensures most { result ≤ 32767 }
    ensures written { out.new ≡ sets out.old 0 (lines_of (delivery_from f (recorded_in bytes.now) 0)) }
{
    let n = text::words::read_words(bytes, symbols);
    let m = span::length::span_lengths(f).samples;
    put_spans(f, &symbols[..n], &mut rows[..m], out)
}

// All that is printed: the lines, or the refusal if the input names no known format and depth.
pub(crate) fn put_listing(
    input: &[u8],
    symbols: &mut [u16],
    rows: &mut [u16],
    out: &mut [u8],
) -> usize
    requires symbols_len { length symbols.old ≡ most_symbols }
    requires rows_len { length rows.old ≡ 7680 }
    requires in_bounds { 65536 ≤ length out.old }
    ensures counts { IsPrefixLen result out.new }
    ensures end { result ≡ length (span_listing input.now) }
    ensures written { out.new ≡ sets out.old 0 (span_listing input.now) }
{
    if input.len() < 2 {
        return text::put::put_text(b"refused 1\n", out, 0);
    }
    let f = span::format::plain_format(input[0], input[1]);
    if span::format::is_known(f) {
        return put_recording(f, &input[2..], symbols, rows, out);
    }
    text::put::put_text(b"refused 1\n", out, 0)
}
