// Blocks of six and of four bits: what one brings to a symbol, and to the disparity after it.
#![tactic(auto)]

pub mod bits;
pub mod parts;
