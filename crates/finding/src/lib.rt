// Finding spans in a recording, and reading the next one.
#![tactic(auto)]

pub mod find;
mod look;
pub mod next;
mod seek;
