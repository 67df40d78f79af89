// The state of four lanes, lent as one array, and what the machines permit a lane of it.
#![tactic(auto)]

pub mod held;
pub mod rules;
pub mod search;
pub mod shared;
pub mod state;
