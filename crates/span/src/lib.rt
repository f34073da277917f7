// What a span is: formats and their lengths, content bytes, the samples that a line may carry. Most of this crate is definitions
// (specs/) and laws of what is where in a span (proofs/).
#![tactic(auto)]

pub mod blanking;
pub mod content;
pub mod fit;
pub mod format;
pub mod layout;
pub mod length;
pub mod sample;
