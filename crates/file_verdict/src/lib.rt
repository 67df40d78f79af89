// The refusals of the paper's table, their numbers and records, and the verdict on a kernel file.
#![tactic(auto)]

pub mod number;
pub mod refusal;
