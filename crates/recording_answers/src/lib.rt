// What the calls on a recording answer to C.
#![tactic(auto)]

pub mod recordings;
