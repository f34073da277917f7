// The two blocks of one character, as the book's tables have them (`symbol::blocks`).
ghost use Rattle.std.specs.Prelude.{◌≡◌, ◌<◌, get_or};
ghost use Rattle.symbol.specs.Blocks.{six_bits, alternate_at};
ghost use Rattle.symbol.specs.Character.{x_of, y_of};
ghost use Rattle.symbol.specs.Code.{one_of, six_of, four_of};
ghost use Rattle.encoder.specs.Inside.Character.{four_of_byte};

use symbol::disparity::Disparity;

// x and y of the special characters in the order of their numbers: K28.0 to K28.7, K23.7, K27.7, K29.7, K30.7.
const SPECIAL_X: [u16; 12] = [28, 28, 28, 28, 28, 28, 28, 28, 23, 27, 29, 30];

const SPECIAL_Y: [u16; 12] = [0, 1, 2, 3, 4, 5, 6, 7, 7, 7, 7, 7];

// x of the character Dx.y or Kx.y.
fn x_of(c: u16) -> u16
    requires { c < 268 }
    ensures { result ≡ x_of c }
{
    if c < 256 {
        return c % 32;
    }
    SPECIAL_X[(c - 256) as usize]
}

// y of the character Dx.y or Kx.y.
fn y_of(c: u16) -> u16
    requires { c < 268 }
    ensures { result ≡ y_of c }
{
    if c < 256 {
        return c / 32;
    }
    SPECIAL_Y[(c - 256) as usize]
}

// The six bits of Dx, and of Kx where x is not 28.
fn six_at(d: Disparity, x: u16) -> u16
    requires { x < 32 }
    ensures { result ≡ get_or (six_bits d) x 0 }
{
    let blocks = symbol::blocks::six_bits(d);
    blocks[x as usize]
}

// The six bits of a character, by the disparity before it.
#[tactic(auto, using(crate::proofs::Blocks::x_below))]
pub(crate) fn six_of(d: Disparity, c: u16) -> u16
    requires { c < 268 }
    ensures { result ≡ six_of d c }
{
    let x = x_of(c);
    if c < 256 {
        return six_at(d, x);
    }
    if x == 28 {
        return symbol::blocks::six_bits_k28(d);
    }
    six_at(d, x)
}

// Whether a byte x.7 takes the alternate form, by the disparity before its four bits.
fn takes_alternate(d: Disparity, x: u16) -> bool
    ensures { result ≡ one_of x (alternate_at d) }
{
    symbol::blocks::alternate_at(d).contains(&x)
}

// The four bits of a byte x.y, by the disparity before them.
fn four_of_byte(d: Disparity, x: u16, y: u16) -> u16
    requires { y < 8 }
    ensures { result ≡ four_of_byte d x y }
{
    let blocks = symbol::blocks::four_bits(d);
    if y < 7 {
        return blocks[y as usize];
    }
    if takes_alternate(d, x) {
        return symbol::blocks::alternate(d);
    }
    blocks[7]
}

// The four bits of a character, by the disparity before them.
#[tactic(auto, using(crate::proofs::Blocks::y_below))]
pub(crate) fn four_of(d: Disparity, c: u16) -> u16
    requires { c < 268 }
    ensures { result ≡ four_of d c }
{
    let y = y_of(c);
    if c < 256 {
        return four_of_byte(d, x_of(c), y);
    }
    let special = symbol::blocks::four_bits_special(d);
    special[y as usize]
}
