// The sheet of a kernel file of whatever bytes, at each level.
#![tactic(auto)]

pub mod lower;
pub mod whole;
