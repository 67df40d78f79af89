// Placement of the cookbook's barriers in a lane that is given as rows. `place::place_lane` is the entry.
#![tactic(auto)]

pub mod place;
mod steps;
pub mod table;
