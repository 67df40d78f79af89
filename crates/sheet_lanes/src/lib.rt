// The plans of the lanes of a sheet, and the lanes written by them, at each level.
#![tactic(auto)]

pub(crate) mod codes;
pub(crate) mod lane;
pub mod plan;
pub mod starts;
pub(crate) mod steps;
pub mod whole;
