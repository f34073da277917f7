// The 8B/10B code of ANSI INCITS 230: characters, ten-bit symbols, running disparity.
#![tactic(auto)]

pub mod blocks;
pub mod character;
pub mod disparity;
pub mod special;
