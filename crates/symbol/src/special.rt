// The twelve special characters, under the code's own names.
ghost use Rattle.std.specs.Prelude.{◌≡◌};
ghost use Rattle.symbol.specs.Character.{number_of, nth};

#[derive(Clone, Copy, Debug, PartialEq, Eq)]
pub enum Special {
    K28_0,
    K28_1,
    K28_2,
    K28_3,
    K28_4,
    K28_5,
    K28_6,
    K28_7,
    K23_7,
    K27_7,
    K29_7,
    K30_7,
}

// The character number of a special character.
pub fn number(k: Special) -> u16
    ensures { result ≡ number_of k }
{
    match k {
        Special::K28_0 => 256,
        Special::K28_1 => 257,
        Special::K28_2 => 258,
        Special::K28_3 => 259,
        Special::K28_4 => 260,
        Special::K28_5 => 261,
        Special::K28_6 => 262,
        Special::K28_7 => 263,
        Special::K23_7 => 264,
        Special::K27_7 => 265,
        Special::K29_7 => 266,
        Special::K30_7 => 267,
    }
}

// The special characters in the order of their numbers, from 256 on.
const NAMES: [Special; 12] = [
    Special::K28_0,
    Special::K28_1,
    Special::K28_2,
    Special::K28_3,
    Special::K28_4,
    Special::K28_5,
    Special::K28_6,
    Special::K28_7,
    Special::K23_7,
    Special::K27_7,
    Special::K29_7,
    Special::K30_7,
];

// The special character with number 256 + n; K28.0 if there is none, as `nth` says: both are total.
#[tactic(auto, unfolding(crate::specs::Character::nth))]
pub fn named(n: u16) -> Special
    ensures { result ≡ nth n }
{
    NAMES.get(n as usize).copied().unwrap_or(Special::K28_0)
}
