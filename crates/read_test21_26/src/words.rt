// The words of a window, with the replaced bytes of its timing codes at their fixed values (document 01, "A span").
ghost use Rattle.std.specs.Prelude.{◌≡◌, ◌*◌, ◌≤◌, ◌<◌, length};
ghost use Rattle.span.specs.Format.{pairs_in};
ghost use Rattle.window.specs.Read.{content_in};
ghost use Rattle.window.specs.Words.{fixed_byte, byte_at, word_at};

use crate::given::Window;
use packing::bytes::ThreeBytes;
use span::content::ContentBytes;

// Byte i of a timing code, one of the four replaced in sending: FF of the words FFF; with two streams, where the third word is already 000,
// the last is 00.
fn fixed_byte(pairs: usize, i: usize) -> u8
    requires le_pairs { 1 ≤ pairs }
    requires pairs_bound { pairs ≤ 2 }
    requires i_bound { i < 4 }
    ensures { result ≡ fixed_byte (2 * pairs) i }
{
    if pairs == 1 {
        if i == 3 {
            return 0x00;
        }
    }
    0xFF
}

// Byte i of a window.
fn byte_at(w: Window, i: usize) -> u8
    requires i_in_bounds { i < length w.symbols.now }
    ensures { result ≡ byte_at w.entry.shape w.entry.symbols.now i }
{
    let eav = span::layout::EAV_SYMBOL * w.shape.stream_pairs;
    if i < 4 {
        return fixed_byte(w.shape.stream_pairs, i);
    }
    if i < eav {
        return decoder::table::byte_of(w.table, w.symbols[i]);
    }
    if i < eav + 4 {
        return fixed_byte(w.shape.stream_pairs, i - eav);
    }
    decoder::table::byte_of(w.table, w.symbols[i])
}

// Interleaved word k of a window.
pub(crate) fn word_at(w: Window, k: usize) -> u16
    requires k_bound { k < 2 * pairs_in w.shape }
    ensures word { result ≡ word_at w.entry.shape w.entry.symbols.now k }
    ensures small { result < 4096 }
{
    let q = k / 2;
    let pair = packing::bytes::unpack(ThreeBytes {
        first: byte_at(w, 3 * q),
        second: byte_at(w, 3 * q + 1),
        third: byte_at(w, 3 * q + 2),
    });
    if k % 2 == 0 {
        return pair.a;
    }
    pair.b
}

// The content bytes after the special characters of SAV and EAV.
pub(crate) fn content_in(w: Window) -> ContentBytes
    ensures { result ≡ content_in w.entry.shape w.entry.symbols.now }
{
    let eav = span::layout::EAV_SYMBOL * w.shape.stream_pairs;
    ContentBytes {
        sav1: decoder::table::byte_of(w.table, w.symbols[2]),
        sav2: decoder::table::byte_of(w.table, w.symbols[3]),
        eav1: decoder::table::byte_of(w.table, w.symbols[eav + 2]),
        eav2: decoder::table::byte_of(w.table, w.symbols[eav + 3]),
    }
}
