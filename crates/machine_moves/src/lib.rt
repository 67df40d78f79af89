// A schedule as a slice of moves, run from a kernel file of whatever bytes.
#![tactic(auto)]

pub mod moves;
pub mod run;
