// The chains of a kernel file as rows, from the order of its records.
#![tactic(auto)]

mod chain;
pub mod whole;
