// A table of all 268 characters, filled with what their two blocks bring to an entry. A row is the 32 bytes x.y of one y: in its loop the six
// bits differ, and a mask picks one of two forms of the four bits.
ghost use Rattle.std.specs.Prelude.{◌≡◌, ◌+◌, ◌≤◌, ◌<◌, length, set};
ghost use Rattle.std.proofs.lemmas.List.Edits.{sets};
ghost use Rattle.encoder.specs.Inside.Filling.{picked, row_of, all_rows, k28s_of, both_blocks};
ghost use Rattle.encoder.specs.Inside.Filling.{other_specials_put, characters_put};

// What the four bits bring: `same` where the mask has no bit, `other` where it has all.
fn picked(mask: u16, same: u16, other: u16) -> u16
    ensures { result ≡ picked mask same other }
{
    same ^ (mask & (same ^ other))
}

// A row: the 32 bytes of one y.
fn fill_row(low: &[u16; 32], masks: &[u16; 32], same: u16, other: u16, out: &mut [u16], at: usize)
    requires { at + 32 ≤ length out.old }
    ensures { out.new ≡ sets out.old at (row_of low.now masks.now same other) }
{
    for x in 0..32 {
        out[at + x] = low[x] | picked(masks[x], same, other);
    }
}

// All bytes: the rows of y = 0 to 7.
fn fill_bytes(
    low: &[u16; 32],
    masks: &[u16; 32],
    same: &[u16; 8],
    other: &[u16; 8],
    out: &mut [u16],
    at: usize,
)
    requires { at + 256 ≤ length out.old }
    ensures { out.new ≡ sets out.old at (all_rows low.now masks.now same.now other.now) }
{
    for y in 0..8 {
        fill_row(low, masks, same[y], other[y], out, at + 32 * y);
    }
}

// K28.0 to K28.7.
fn fill_k28s(k28: u16, special: &[u16; 8], out: &mut [u16], at: usize)
    requires { at + 8 ≤ length out.old }
    ensures { out.new ≡ sets out.old at (k28s_of k28 special.now) }
{
    for y in 0..8 {
        out[at + y] = k28 | special[y];
    }
}

// One entry, of the six bits of Dx or Kx.
pub(crate) fn put_entry(low: &[u16; 32], x: usize, four: u16, out: &mut [u16], at: usize)
    requires x_bound { x < 32 }
    requires at_in_bounds { at < length out.old }
    ensures { out.new ≡ set out.old at (both_blocks low.now x four) }
{
    out[at] = low[x] | four;
}

// K23.7, K27.7, K29.7 and K30.7.
fn fill_other_specials(low: &[u16; 32], seven: u16, out: &mut [u16], at: usize)
    requires { at + 4 ≤ length out.old }
    ensures { out.new ≡ other_specials_put low.now seven out.old at }
{
    put_entry(low, 23, seven, out, at);
    put_entry(low, 27, seven, out, at + 1);
    put_entry(low, 29, seven, out, at + 2);
    put_entry(low, 30, seven, out, at + 3);
}

// All characters in the order of their numbers. `low` is what the six bits of D0 to D31 bring, `k28` those of K28; `same` what the four bits
// of a byte bring at the disparity before the character, and `other` at the opposite one; `special` those of a special character at the
// opposite one, since the six bits of every special character flip it.
pub(crate) fn fill_characters(
    low: &[u16; 32],
    masks: &[u16; 32],
    same: &[u16; 8],
    other: &[u16; 8],
    k28: u16,
    special: &[u16; 8],
    out: &mut [u16],
    at: usize,
)
    requires { at + 268 ≤ length out.old }
    ensures { out.new ≡ characters_put low.now masks.now same.now other.now k28 special.now out.old at }
{
    fill_bytes(low, masks, same, other, out, at);
    fill_k28s(k28, special, out, at + 256);
    fill_other_specials(low, special[7], out, at + 264);
}
