// The text of a move and of a state record, and of a run on a kernel file.
#![tactic(auto)]

pub mod entry;
mod lane;
pub mod moves;
mod names;
mod numbers;
pub mod places;
pub mod states;
pub mod whole;
