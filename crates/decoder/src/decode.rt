// The single decoder: one symbol where the disparity before it is known.
ghost use Rattle.std.specs.Prelude.{◌≡◌};
ghost use Rattle.decoder.specs.Decode.{paper_decoded, decode_of};
ghost use Rattle.decoder.specs.Inside.Decoder.{decoded_by};

use symbol::character::Character;
use symbol::disparity::Disparity;

// What a symbol is where the disparity before it is known, with the disparity after it.
#[derive(Clone, Copy, Debug, PartialEq, Eq)]
pub struct Decoded {
    pub character: Character,
    pub after: Disparity,
}

#[derive(Clone, Copy, Debug, PartialEq, Eq)]
pub enum DecodeError {
    // 7: no symbol has more than ten bits.
    Above1023,
    // 20: no character has this symbol at this disparity.
    Illegal,
}

// What an entry says at a disparity.
fn decode_by(d: Disparity, e: u16) -> Result<Decoded, DecodeError>
    ensures { paper_decoded result ≡ decoded_by d e }
{
    if crate::table::legal_at(d, e) {
        return Ok(Decoded {
            character: crate::table::character_in(e),
            after: crate::table::after_entry(d, e),
        });
    }
    Err(DecodeError::Illegal)
}

// One symbol at the running disparity before it.
pub fn decode(d: Disparity, s: u16) -> Result<Decoded, DecodeError>
    ensures { paper_decoded result ≡ decode_of d s }
{
    if 1023 < s {
        return Err(DecodeError::Above1023);
    }
    decode_by(d, crate::table::entry_of(s))
}
