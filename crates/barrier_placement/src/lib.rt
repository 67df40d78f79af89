// The cookbook's table and codes, and the types that placement is told in.
#![tactic(auto)]

pub mod cookbook;
pub mod steps;
