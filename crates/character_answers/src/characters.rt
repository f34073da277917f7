// What decoding and encoding answer: characters by their numbers. Structs of numbers, since C has no Option and no Result.
ghost use Rattle.std.specs.Prelude.{◌≡◌};
ghost use Rattle.ground.specs.Answer.{refused};
ghost use Rattle.decoder.specs.Decode.{paper_decoded};
ghost use Rattle.character_answers.specs.Characters.{character_number, decoded_as, decode_answer_of, encoded_as, encode_answer_of};

use decoder::decode::{DecodeError, Decoded};
use encoder::encode::Encoded;
use symbol::character::Character;
use symbol::disparity::Disparity;

#[repr(C)]
#[derive(Drop)]
pub struct DecodeAnswer {
    pub number: u32,
    pub character: u32,
    pub positive_after: bool,
}

#[repr(C)]
#[derive(Drop)]
pub struct EncodeAnswer {
    pub known: bool,
    pub symbol: u32,
    pub positive_after: bool,
}

fn decoded(character: u16, after: Disparity) -> DecodeAnswer
    ensures { result ≡ decoded_as character after }
{
    DecodeAnswer {
        number: 0,
        character: character as u32,
        positive_after: boundary::numbers::is_positive(after),
    }
}

fn decode_refused(number: u32) -> DecodeAnswer
    ensures { result ≡ decode_answer_of (refused number 0) }
{
    DecodeAnswer {
        number,
        character: 0,
        positive_after: false,
    }
}

// The number of a character: a byte's own, or one of the special characters' from 256 on.
fn number_of(c: Character) -> u16
    ensures { result ≡ character_number c }
{
    match c {
        Character::Byte(b) => u16::from(b),
        Character::Special(k) => symbol::special::number(k),
    }
}

pub fn decode_answer(r: Result<Decoded, DecodeError>) -> DecodeAnswer
    ensures { result ≡ decode_answer_of (paper_decoded r) }
{
    match r {
        Ok(d) => decoded(number_of(d.character), d.after),
        Err(DecodeError::Above1023) => decode_refused(7),
        Err(DecodeError::Illegal) => decode_refused(20),
    }
}

fn encoded(e: Encoded) -> EncodeAnswer
    ensures { result ≡ encoded_as e }
{
    let after = e.after;
    EncodeAnswer {
        known: true,
        symbol: e.symbol as u32,
        positive_after: boundary::numbers::is_positive(after),
    }
}

// A character by its number, at the running disparity before it. The papers refuse none: a number above 267 has no character and no symbol.
pub fn encode_answer(d: Disparity, character: u32) -> EncodeAnswer
    ensures { result ≡ encode_answer_of d character }
{
    if character < 256 {
        return encoded(encoder::encode::encode_byte(d, character as u8));
    }
    if character < 268 {
        let k = symbol::special::named((character - 256) as u16);
        return encoded(encoder::encode::encode_special(d, k));
    }
    EncodeAnswer {
        known: false,
        symbol: 0,
        positive_after: false,
    }
}
