// The 8B/10B code, one character at a time.
ghost use Rattle.std.specs.Prelude.{◌≡◌};
ghost use Rattle.face.specs.Calls.{decode·answer, encode·answer};

use character_answers::characters::{DecodeAnswer, EncodeAnswer};

// A symbol at the running disparity before it: 7, 20.
#[unsafe(no_mangle)]
pub extern "C" fn brazulint4_decode(positive: bool, symbol: u32) -> DecodeAnswer
    ensures { result ≡ decode·answer positive symbol }
{
    let d = boundary::numbers::disparity_from(positive);
    let s = boundary::numbers::at_most_65535(symbol);
    character_answers::characters::decode_answer(decoder::decode::decode(d, s))
}

// A character by its number at the running disparity before it. It refuses nothing.
#[unsafe(no_mangle)]
pub extern "C" fn brazulint4_encode(positive: bool, character: u32) -> EncodeAnswer
    ensures { result ≡ encode·answer positive character }
{
    character_answers::characters::encode_answer(
        boundary::numbers::disparity_from(positive),
        character,
    )
}
