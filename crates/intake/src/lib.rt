// What a program is given on standard input, read into a lent buffer.
#![tactic(auto)]

pub mod reading;
