// A schedule as text, read into bytes.
#![tactic(auto)]

mod lines;
pub mod place;
pub mod whole;
