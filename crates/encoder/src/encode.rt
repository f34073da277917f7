// Encoding: a character to its ten-bit symbol.
ghost use Rattle.std.specs.Prelude.{◌≡◌, ◌<◌};
ghost use Rattle.symbol.specs.Character.{number_of};
ghost use Rattle.encoder.specs.Encode.{encoded};

use symbol::disparity::Disparity;
use symbol::special::Special;

// The ten-bit symbol, its lowest bit sent first, and the disparity after it.
#[derive(Drop)]
pub struct Encoded {
    pub symbol: u16,
    pub after: Disparity,
}

// A character by its number, at the running disparity before it.
fn encode_character(d: Disparity, c: u16) -> Encoded
    requires { c < 268 }
    ensures { result ≡ encoded d c }
{
    let six = crate::character::six_of(d, c);
    let between = symbol::disparity::flipped_if(block::bits::unbalanced(3, six), d);
    let four = crate::character::four_of(between, c);
    let after = symbol::disparity::flipped_if(block::bits::unbalanced(2, four), between);
    let symbol = block::bits::as_symbol(six, four);
    Encoded { symbol, after }
}

// A byte at the running disparity before it.
pub fn encode_byte(d: Disparity, b: u8) -> Encoded
    ensures { result ≡ encoded d b }
{
    encode_character(d, b as u16)
}

// A special character at the running disparity before it.
pub fn encode_special(d: Disparity, k: Special) -> Encoded
    ensures { result ≡ encoded d (number_of k) }
{
    encode_character(d, symbol::special::number(k))
}
