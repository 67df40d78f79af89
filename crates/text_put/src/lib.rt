// Bytes, decimals and words laid into a buffer.
#![tactic(auto)]

pub mod put;
pub mod words;
