// A window of symbols read as a span: what reading it answers. Most of this crate is definitions (specs/) and laws (proofs/).
#![tactic(auto)]

pub mod delivery;
