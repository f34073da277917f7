// Rows of a picture divided into the rows of two images, and joined.
#![tactic(auto)]

pub mod join;
pub mod row;
pub mod split;
