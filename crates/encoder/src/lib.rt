// 8B/10B encoding: a character to its ten-bit symbol, and the tables that a loop uses.
#![tactic(auto)]

mod character;
pub mod encode;
mod filling;
pub mod tables;
