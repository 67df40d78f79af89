// The rows of a sheet, read and written.
#![tactic(auto)]

pub mod number;
pub mod parts;
pub mod put;
pub mod read;
