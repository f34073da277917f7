// Reading a span: the answer and the rows.
#![tactic(auto)]

pub mod accept;
pub mod answer;
mod delivery;
mod picture;
pub mod read;
