// The state record of a run, written for C.
#![tactic(auto)]

pub mod lane;
pub mod put;
pub mod state;
