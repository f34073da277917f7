// Stepping through a recording (document 01, "Which form goes where": a reader that holds the recording and its place).
#![tactic(auto)]

pub mod reader;
