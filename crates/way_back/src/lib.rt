// The way back to the picture: which basic image and which line of the picture a stream line carries.
#![tactic(auto)]

pub mod back;
