// The loopback rig: pieces of a frame sent over one link, knocked, delivered and joined.
#![tactic(auto)]

pub mod carry;
pub mod knock;
mod transmit;
