// What the calls on one span answer to C.
#![tactic(auto)]

pub mod spans;
