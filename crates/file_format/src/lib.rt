// The kernel file: its fields, and the operations of a lane.
#![tactic(auto)]

pub mod accepted;
pub mod fields;
