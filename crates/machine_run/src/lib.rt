// A schedule's bytes run on a machine; whether it is legal, and whether a run has finished.
#![tactic(auto)]

pub mod judge;
pub mod run;
