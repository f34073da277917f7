// The error detection code of a line: the register over a run of words, and the two words that carry it.
#![tactic(auto)]

pub mod crcc;
pub mod sums;
