// The place of test 20 in a window in which the single pass found a fault: symbol by symbol, from a place before which all is valid.
ghost use Rattle.std.specs.Prelude.{◌≡◌, ◌≤◌};
ghost use Rattle.decoder.specs.Inside.Decoder.{decoding_table};
ghost use Rattle.window.specs.Scan.{start_of, fits};
ghost use Rattle.read_test20.specs.Inside.Run.{holds_by, ScanInv, place20};

use span::format::Shape;
use symbol::disparity::Disparity;

// The numbers of the special characters at which SAV and EAV begin.
const K28_5: u16 = 261;

const K29_7: u16 = 266;

// The disparity whose K28.5 is symbol 0.
pub(crate) fn start_of(symbols: &[u16]) -> Disparity
    ensures { result ≡ start_of symbols.now }
{
    if 0 < symbols.len() {
        if symbols[0] == 0x17C {
            return Disparity::Negative;
        }
    }
    Disparity::Positive
}

// Whether a character is of the kind that belongs at symbol i.
fn fits_at(p: Shape, i: usize, c: u16) -> bool
    requires { p.stream_pairs ≤ 2 }
    ensures { result ≡ fits p i c }
{
    if i < 2 {
        return c == K28_5;
    }
    let eav = span::layout::EAV_SYMBOL * p.stream_pairs;
    if i < eav {
        return c < 256;
    }
    if i < eav + 2 {
        return c == K29_7;
    }
    c < 256
}

// Whether a table entry is legal at the disparity of a mask bit, with such a character.
fn holds(p: Shape, i: usize, mask: u16, e: u16) -> bool
    requires { p.stream_pairs ≤ 2 }
    ensures { result ≡ holds_by p i mask e }
{
    if decoder::mask::legal_by(mask, e) {
        return fits_at(p, i, e % 512);
    }
    false
}

// The place, given that test 20 holds at every symbol before `from`, and given the mask bit of the disparity there.
pub(crate) fn first_wrong(
    t: &[u16; 1024],
    p: Shape,
    symbols: &[u16],
    from: usize,
    mask: u16,
) -> usize
    requires t_value { t.now ≡ decoding_table }
    requires stream_pairs_bound { p.stream_pairs ≤ 2 }
    requires scan_inv { ScanInv p symbols.now from mask }
    ensures { result ≡ place20 p symbols.now }
{
    let mut m = mask;
    for i in from..symbols.len() {
        let e = decoder::table::entry(t, symbols[i]);
        if !holds(p, i, m, e) {
            return i;
        }
        m = decoder::mask::after_by(m, e);
    }
    symbols.len()
}
