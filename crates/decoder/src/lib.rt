// Decoding the 8B/10B code: what a symbol is where the disparity before it is known, and what it means at any disparity.
#![tactic(auto)]

pub mod decode;
pub mod mask;
pub mod meaning;
pub mod table;
