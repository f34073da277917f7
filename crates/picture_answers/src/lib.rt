// What the calls on places and rows answer to C.
#![tactic(auto)]

pub mod pictures;
