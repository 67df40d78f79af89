// A run from a kernel file, on the borrowed state: its start, one move of a schedule, what it returns, and
// its record.
#![tactic(auto)]

pub mod begin;
pub mod course;
pub mod finish;
pub mod fold;
pub mod moves;
pub mod record;
mod start;
