// Sending a span.
#![tactic(auto)]

mod check;
mod coder;
mod parts;
mod picture_words;
mod put;
pub mod send;
mod timing;
