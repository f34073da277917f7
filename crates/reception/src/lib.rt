// Receiving a piece of the frame that the loopback rig sends: five lines, delivered and joined.
#![tactic(auto)]

pub mod link;
pub mod receive;
pub mod summary;
