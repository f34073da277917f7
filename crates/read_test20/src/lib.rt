// Test 20, and with it the rows and the CRCs of a window that passes: a window whose symbols are all valid is read in one pass.
#![tactic(auto)]

mod area;
mod fill;
mod picture;
mod place;
mod see;
pub mod whole;
