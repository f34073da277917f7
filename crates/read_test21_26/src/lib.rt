// Tests 21 to 26 of a window, and what its words say. A test that fails gives its lowest place; whether 25 holds at every place is asked
// first, many words at a time.
#![tactic(auto)]

pub mod call;
mod given;
mod holds;
pub mod picture;
mod repairs;
pub mod service;
mod words;
