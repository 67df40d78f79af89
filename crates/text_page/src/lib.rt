// The page form of a kernel's level 2 sheet, for a binder: lines of 32 characters, on a page 55 behind a heading.
#![tactic(auto)]

pub mod column;
mod line;
mod lines;
pub mod write;
