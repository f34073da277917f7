// What the blocks bring to the entries of the encoder's tables: to a symbol its low or its high bits, to a flip whether the block flips the
// disparity. Each block is looked at once.
ghost use Rattle.std.specs.Prelude.{◌≡◌, ℕ, ◌<◌, length, slice_index};
ghost use Rattle.block.specs.Inside.Parts.{low_bits, high_bits, flip_mask, six_masks, flip_of, four_flips};

use crate::bits::{as_symbol, unbalanced};

// What f answers of each block. An array's own `map` is three times as slow here.
fn each<F: Fn(u16) -> u16, const N: usize>(blocks: [u16; N], f: F) -> [u16; N]
    requires { F.IsAlwaysCallable f }
    ensures long { length result ≡ N }
    ensures at { (i : ℕ) → i < N → F.post f (slice_index blocks.entry i) (slice_index result i) }
{
    let mut answers = [0u16; N];
    for i in 0..N {
        answers[i] = f(blocks[i]);
    }
    answers
}

// The six bits of D0 to D31, each as the low bits of a symbol.
pub fn low_bits(blocks: [u16; 32]) -> [u16; 32]
    ensures { result ≡ low_bits blocks }
{
    each(blocks, |six| as_symbol(six, 0))
}

// Eight blocks of four bits, each as the high bits of a symbol.
pub fn high_bits(blocks: [u16; 8]) -> [u16; 8]
    ensures { result ≡ high_bits blocks }
{
    each(blocks, |four| as_symbol(0, four))
}

// All sixteen bits where a block of six flips the disparity, else none.
fn flip_mask(block: u16) -> u16
    ensures { result ≡ flip_mask block }
{
    if unbalanced(3, block) {
        return 0xFFFF;
    }
    0
}

// The masks of D0 to D31.
pub fn six_masks(blocks: [u16; 32]) -> [u16; 32]
    ensures { result ≡ six_masks blocks }
{
    each(blocks, flip_mask)
}

// The flip of a character whose six bits alone have the flip `six`: a block of four bits that flips the disparity makes 0 of 268, and 268 of 0.
fn flip_of(six: u16, block: u16) -> u16
    ensures { result ≡ flip_of six block }
{
    if unbalanced(2, block) {
        return six ^ 268;
    }
    six
}

// The flips with each of eight blocks of four bits.
pub fn four_flips(six: u16, blocks: [u16; 8]) -> [u16; 8]
    ensures { result ≡ four_flips six blocks }
{
    each(blocks, |four| flip_of(six, four))
}
