// The chains of a file walked once, and what their order tells (refusals 5, 6 and 7).
#![tactic(auto)]

pub mod link;
pub mod targets;
