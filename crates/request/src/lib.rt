// A request to send a span: which are refused, and what is answered. Most of this crate is definitions (specs/) and laws (proofs/).
#![tactic(auto)]

pub mod sent;
