// The listing of a sheet, line by line, and the line of a refusal.
#![tactic(auto)]

pub mod line;
mod measured;
pub mod refusal;
mod title;
pub mod whole;
