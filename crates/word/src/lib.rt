// The twelve-bit words of a stream: timing words and line numbers, and the guard bit of line number and CRCC words.
#![tactic(auto)]

pub mod guard;
pub mod line_number;
pub mod received;
pub mod repair;
pub mod timing;
