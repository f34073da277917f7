// The bytes of the picture's file.
ghost use Rattle.std.specs.Prelude.{◌≡◌, ◌+◌, ◌*◌, ◌≤◌, ◌<◌, length};
ghost use Rattle.std.proofs.lemmas.List.Edits.{sets};
ghost use Rattle.io.specs.Counts.{IsPrefixLen};
ghost use Rattle.loopback.specs.File.{high_first, header, piece_bytes};

// The header: the kind of file, the picture's width and height, the largest value.
pub(crate) fn put_header(out: &mut [u8]) -> usize
    requires { 18 ≤ length out.old }
    ensures counts { IsPrefixLen result out.new }
    ensures end { result ≡ length header }
    ensures written { out.new ≡ sets out.old 0 header }
{
    text::put::put_text(b"P5\n3840 2160\n4095\n", out, 0)
}

// The bytes of words, from a place on: two for each, the high byte first (the generator has the low one first, and a definition of its own).
fn put_words(words: &[u16], out: &mut [u8], at: usize) -> usize
    requires { at + 2 * length words.now ≤ length out.old }
    ensures end { result ≡ at + 2 * length words.now }
    ensures written { out.new ≡ sets out.old at (high_first words.now) }
{
    for (i, word) in words.iter().enumerate() {
        let [high, low] = word.to_be_bytes();
        out[at + 2 * i] = high;
        out[at + 2 * i + 1] = low;
    }
    at + 2 * words.len()
}

// The bytes of a piece: those of the rows of its active lines.
pub(crate) fn put_piece(piece: usize, picture: &[u16], out: &mut [u8]) -> usize
    requires piece_bound { piece < 225 }
    requires picture_len { length picture.now ≡ 38400 }
    requires in_bounds { 76800 ≤ length out.old }
    ensures counts { IsPrefixLen result out.new }
    ensures end { result ≡ length (piece_bytes piece picture.now) }
    ensures written { out.new ≡ sets out.old 0 (piece_bytes piece picture.now) }
{
    let mut at = 0;
    for i in 0..5 {
        if line::stream::is_active(line::stream::stream_line((5 * piece + 1 + i) as u16)) {
            let from = 7680 * i;
            let to = from + 7680;
            at = put_words(&picture[from..to], out, at);
        }
    }
    at
}
