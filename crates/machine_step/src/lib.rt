// One step: a lane and a choice, on the lent state.
#![tactic(auto)]

mod access;
pub mod carry;
pub mod commit;
mod guard;
mod local;
pub mod step;
