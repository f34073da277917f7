// What decoding and encoding answer to C.
#![tactic(auto)]

pub mod characters;
