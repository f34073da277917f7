// The text of a listing, in ASCII, put into a lent buffer.
ghost use Rattle.std.specs.Prelude.{◌≡◌, ◌+◌, ◌≤◌, length};
ghost use Rattle.std.proofs.lemmas.List.Edits.{sets};
ghost use Rattle.io.specs.Counts.{IsPrefixLen};
ghost use Rattle.text.specs.Put.{end_of, put_of};
ghost use Rattle.word.specs.Repair.{repair_of};
ghost use Rattle.list_repairs.specs.Text.{bit_text, outcome, repair_line, repair_listing};

// The wrong bit, or "-" where none is; nothing where there is no room.
fn put_bit(bit: Option<u8>, out: &mut [u8], at: usize) -> usize
    ensures end { result ≡ end_of (length out.old) at (bit_text bit) }
    ensures written { out.new ≡ put_of out.old at (bit_text bit) }
{
    match bit {
        None => text::put::put_text(b"-", out, at),
        Some(k) => text::number::put_decimal(k as u64, out, at),
    }
}

// The outcome of a word, with the end of the line.
fn put_outcome(w: u16, out: &mut [u8], at: usize) -> usize
    requires { at + 10 ≤ length out.old }
    ensures end { result ≡ at + length (outcome (repair_of w)) }
    ensures written { out.new ≡ sets out.old at (outcome (repair_of w)) }
{
    match word::repair::repair_timing_word(w) {
        Ok(r) => {
            let a = text::number::put_hexadecimal(r.word, out, at);
            let b = text::put::put_text(b" ", out, a);
            let c = text::number::put_decimal(r.distance as u64, out, b);
            let d = text::put::put_text(b" ", out, c);
            let e = put_bit(r.bit, out, d);
            text::put::put_text(b"\n", out, e)
        }
        Err(_) => text::put::put_text(b"refused\n", out, at),
    }
}

// The line of one word: its index, the word, and its outcome.
fn put_line(index: u16, w: u16, out: &mut [u8], at: usize) -> usize
    requires { at + 21 ≤ length out.old }
    ensures end { result ≡ at + length (repair_line index w) }
    ensures written { out.new ≡ sets out.old at (repair_line index w) }
{
    let a = text::number::put_decimal(index as u64, out, at);
    let b = text::put::put_text(b" ", out, a);
    let c = text::number::put_hexadecimal(w, out, b);
    let d = text::put::put_text(b" ", out, c);
    put_outcome(w, out, d)
}

// Room for the lines of 32,768 words, of at most 21 bytes each.
pub(crate) fn room() -> [u8; 688128]
    ensures { 688128 ≡ length result }
{
    [0; 688128]
}

// All that is printed, at the start of the buffer. Answers where it ends.
pub(crate) fn put_listing(input: &[u8], out: &mut [u8]) -> usize
    requires { 688128 ≤ length out.old }
    ensures counts { IsPrefixLen result out.new }
    ensures end { result ≡ length (repair_listing input.now) }
    ensures written { out.new ≡ sets out.old 0 (repair_listing input.now) }
{
    let count = (input.len() / 2).min(32768);
    let mut at = 0;
    for i in 0..count {
        let w = text::words::word_of(input[2 * i], input[2 * i + 1]);
        at = put_line(i as u16, w, out, at);
    }
    at
}
