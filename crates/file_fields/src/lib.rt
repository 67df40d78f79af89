// The rules of header, length and records (refusals 2, 3 and 4), in code.
#![tactic(auto)]

pub mod header;
mod limits;
pub mod rules;
