// Text in ASCII and words in bytes, for the programs that read standard input and print lines.
#![tactic(auto)]

pub mod number;
pub mod put;
pub mod words;
