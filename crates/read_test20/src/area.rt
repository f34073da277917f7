// The ancillary area: any bytes, and usually one pair of words again and again.
ghost use Rattle.std.specs.Prelude.{◌≡◌, ◌+◌, ◌-◌, ◌%◌, ◌≤◌, length};
ghost use Rattle.decoder.specs.Inside.Decoder.{decoding_table};
ghost use Rattle.read_test20.specs.Inside.See.{TenBits, GatherInv};

use crate::see::Kept;

// The same as `see_run`. Where the first three symbols leave the disparity as it was and each later one equals the one three before it, no
// other has to be looked up: so the area is passed many symbols at a time whichever blanking word it has (004, 6.8).
pub(crate) fn see_area(t: &[u16; 1024], symbols: &[u16], from: usize, to: usize, flips: u32) -> Kept
    requires t_value { t.now ≡ decoding_table }
    requires ten_bits { TenBits symbols.now }
    requires from_bound { from + 3 ≤ to }
    requires to_in_bounds { to ≤ length symbols.now }
    requires from_value { (to - from) % 3 ≡ 0 }
    requires gather_inv { GatherInv symbols.now from from 65535 flips }
    ensures { GatherInv symbols.now from to result.good result.flips }
{
    let first = crate::see::see_run(t, symbols, from, from + 3, flips);
    if crate::see::passes(first.good) {
        if first.flips / 2048 % 4 == flips / 2048 % 4 {
            if crate::fill::repeats(symbols, from, to) {
                return first;
            }
        }
    }
    crate::see::see_run(t, symbols, from, to, flips)
}
