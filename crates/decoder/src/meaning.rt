// What a symbol means, whatever the disparity before it.
ghost use Rattle.std.specs.Prelude.{◌≡◌};
ghost use Rattle.decoder.specs.Meaning.{means_of, paper_meaning, meaning_of};
ghost use Rattle.decoder.specs.Inside.Decoder.{means_by};

use symbol::character::Character;
use symbol::disparity::Disparity;

// The disparities at which a symbol is legal.
#[derive(Clone, Copy, Debug, PartialEq, Eq)]
pub struct Legal {
    pub negative: bool,
    pub positive: bool,
}

// What a symbol means.
#[derive(Clone, Copy, Debug, PartialEq, Eq)]
pub struct Meaning {
    pub character: Character,
    pub legal: Legal,
}

// 7: no symbol has more than ten bits.
#[derive(Clone, Copy, Debug, PartialEq, Eq)]
pub struct Above1023;

// What an entry says at both disparities; nothing if it is that for no symbol.
fn meaning_by(e: u16) -> Option<Meaning>
    ensures { means_of result ≡ means_by e }
{
    if e == 0 {
        return None;
    }
    let legal = Legal {
        negative: crate::table::legal_at(Disparity::Negative, e),
        positive: crate::table::legal_at(Disparity::Positive, e),
    };
    Some(Meaning {
        character: crate::table::character_in(e),
        legal,
    })
}

// What a symbol means, if it is one.
pub fn meaning_of(s: u16) -> Result<Option<Meaning>, Above1023>
    ensures { paper_meaning result ≡ meaning_of s }
{
    if 1023 < s {
        return Err(Above1023);
    }
    Ok(meaning_by(crate::table::entry_of(s)))
}
