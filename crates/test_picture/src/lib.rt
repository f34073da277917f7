// A test picture: rings around a place left of and above the middle of a 4K picture, and the samples of it that a link carries.
#![tactic(auto)]

pub mod answer;
mod copy;
pub mod row;
pub mod samples;
