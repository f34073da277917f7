// The calls for C and Rust. Each turns the numbers given into the library's own values, makes the library's call, and answers a struct or a
// number; include/brazulint.h says what each does. The comment of each ends with its refusals, in the order tried. The names carry the
// number of the interface, so that what was compiled against another one does not link.
#![tactic(auto)]

pub mod codes;
pub mod interface;
pub mod pictures;
pub mod recordings;
pub mod spans;
pub mod words;
