// A block's bits: whether it flips the disparity, and what it is in a symbol.
ghost use Rattle.std.specs.Prelude.{◌≡◌, ◌^◌, ◌<◌, ◌≤◌};
ghost use Rattle.symbol.specs.Code.{reversed};
ghost use Rattle.block.specs.Inside.Bits.{as_symbol, unbalanced};

// Whether a block of at most six bits flips the disparity: its ones are not the half of its bits.
pub fn unbalanced(half: u16, block: u16) -> bool
    ensures { result ≡ unbalanced half block }
{
    (block % 64).count_ones() != u32::from(half)
}

// The low BITS bits of a block turned round: the bit that is printed first is the lowest.
fn turned<const BITS: u32>(block: u16) -> u16
    requires le_bits { 1 ≤ BITS }
    requires bits_bound { BITS ≤ 16 }
    ensures value { result ≡ reversed BITS block }
    ensures bound { result < 2 ^ BITS }
{
    block.reverse_bits() >> (16 - BITS)
}

// The symbol of two blocks. Its lowest bit is sent first, and the six bits before the four.
pub fn as_symbol(six: u16, four: u16) -> u16
    ensures { result ≡ as_symbol six four }
{
    turned::<6>(six) + 64 * turned::<4>(four)
}
