// Samples as words of a stream, and two words as three bytes of the link.
#![tactic(auto)]

pub mod bytes;
pub mod sample;
