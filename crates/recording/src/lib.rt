// Spans in a recording: what is read where, and what is answered. Most of this crate is definitions (specs/) and laws (proofs/).
#![tactic(auto)]

pub mod answer;
pub mod limit;
