// What the calls on words answer to C.
#![tactic(auto)]

pub mod words;
