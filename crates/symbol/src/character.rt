// A character as the paper calls it: a byte, or a special character by name.
use crate::special::Special;

#[derive(Clone, Copy, Debug, PartialEq, Eq)]
pub enum Character {
    Byte(u8),
    Special(Special),
}
