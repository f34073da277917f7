// Lines, which the papers count in two ways: those of a stream and those of a picture. The two are different types: neither is taken for the
// other, and lines are not added or compared as they are. One becomes the other by the rules here and, in crate picture, by division; only the
// edges take a line's number out or wrap one.
#![tactic(auto)]

pub mod picture;
pub mod stream;
