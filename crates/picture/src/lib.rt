// Dividing a picture: where each sample goes, and the row that a stream line carries.
#![tactic(auto)]

pub mod choice;
pub mod division;
pub mod place;
