// The encoder's tables. A disparity is represented as an offset: where its symbols begin.
ghost use Rattle.std.specs.Prelude.{◌≡◌, ◌+◌, ◌≤◌, length};
ghost use Rattle.encoder.specs.Inside.Filling.{alternates_put, symbols_put};
ghost use Rattle.encoder.specs.Inside.Tables.{offset_of, of_offset, symbol_table, flip_table};

use crate::filling::{fill_characters, put_entry};
use block::bits::as_symbol;
use block::parts::{four_flips, high_bits, low_bits, six_masks};
use symbol::blocks::{
    alternate, alternate_at, four_bits, four_bits_special, six_bits, six_bits_k28,
};
use symbol::disparity::Disparity;

// The alternate form of .7 in the row of y = 7 at disparity d. The six bits of a byte that takes it leave the disparity as it was.
fn put_alternates(d: Disparity, low: &[u16; 32], out: &mut [u16], at: usize)
    requires { at + 32 ≤ length out.old }
    ensures { out.new ≡ alternates_put d low.now out.old at }
{
    let xs = alternate_at(d);
    let high = as_symbol(0, alternate(d));
    let a = xs[0] as usize;
    let b = xs[1] as usize;
    let c = xs[2] as usize;
    put_entry(low, a, high, out, at + a);
    put_entry(low, b, high, out, at + b);
    put_entry(low, c, high, out, at + c);
}

// The symbols of all characters at disparity d, out of what their blocks bring (`filling::fill_characters`).
fn put_symbols(
    d: Disparity,
    low: &[u16; 32],
    masks: &[u16; 32],
    same: &[u16; 8],
    other: &[u16; 8],
    special: &[u16; 8],
    out: &mut [u16],
    at: usize,
)
    requires { at + 268 ≤ length out.old }
    ensures { out.new ≡ symbols_put d low.now masks.now same.now other.now special.now out.old at }
{
    let k28 = as_symbol(six_bits_k28(d), 0);
    fill_characters(low, masks, same, other, k28, special, out, at);
    put_alternates(d, low, out, at + 224);
}

// The symbols by value, for a loop to hold and pass by reference: those of all characters at negative disparity, then at positive; for each,
// the bytes and then the special characters in the order of their numbers.
pub fn symbol_table() -> [u16; 536]
    ensures { result ≡ symbol_table }
{
    let n = Disparity::Negative;
    let p = Disparity::Positive;
    let masks = six_masks(six_bits(n));
    let low_n = low_bits(six_bits(n));
    let low_p = low_bits(six_bits(p));
    let four_n = high_bits(four_bits(n));
    let four_p = high_bits(four_bits(p));
    let special_n = high_bits(four_bits_special(n));
    let special_p = high_bits(four_bits_special(p));
    let mut symbols = [0u16; 536];
    put_symbols(
        n,
        &low_n,
        &masks,
        &four_n,
        &four_p,
        &special_p,
        &mut symbols,
        0,
    );
    put_symbols(
        p,
        &low_p,
        &masks,
        &four_p,
        &four_n,
        &special_n,
        &mut symbols,
        268,
    );
    symbols
}

// The flip entries by value. The offset after a character is the exclusive or of the offset before it and its entry. A block flips the
// disparity at both disparities or at neither, and both forms of .7 flip it.
pub fn flip_table() -> [u16; 268]
    ensures { result ≡ flip_table }
{
    let n = Disparity::Negative;
    let masks = six_masks(six_bits(n));
    let same = four_flips(0, four_bits(n));
    let other = four_flips(268, four_bits(n));
    let special = four_flips(268, four_bits_special(n));
    let zeros = [0u16; 32];
    let mut flips = [0u16; 268];
    fill_characters(&zeros, &masks, &same, &other, 0, &special, &mut flips, 0);
    flips
}

// Both tables as they are lent.
#[derive(Clone, Copy)]
pub struct Tables<'a> {
    pub symbols: &'a [u16; 536],
    pub flips: &'a [u16; 268],
    pub ghost symbols_value: { symbols.now ≡ symbol_table },
    pub ghost flips_value: { flips.now ≡ flip_table },
}

// Where the symbols of a disparity begin. The decoder has a bit in its place (`decoder::mask`), since its table has one half.
pub fn offset_of(d: Disparity) -> usize
    ensures { result ≡ offset_of d }
{
    match d {
        Disparity::Negative => 0,
        Disparity::Positive => 268,
    }
}

// The disparity whose symbols begin at an offset.
pub fn disparity_at(offset: usize) -> Disparity
    ensures { result ≡ of_offset offset }
{
    if offset == 0 {
        return Disparity::Negative;
    }
    Disparity::Positive
}
