// What every layer uses; nothing about links. Most of this crate is definitions (specs/) and laws (proofs/).
#![tactic(auto)]

pub mod range;
