// The CRC of each row of a picture, many words at a time.
#![tactic(auto)]

pub(crate) mod fold;
pub mod sums;
