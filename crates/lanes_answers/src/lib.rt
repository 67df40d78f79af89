// What the seven C calls answer: the definitions, and an answer as one number.
#![tactic(auto)]

pub mod packed;
