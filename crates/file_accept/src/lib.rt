// A kernel file of whatever bytes, accepted or refused.
#![tactic(auto)]

pub mod accept;
pub mod output;
