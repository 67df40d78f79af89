// What the programs share: standard output, the arguments, and the files and schedules that they name.
#![tactic(auto)]

pub mod arguments;
pub mod files;
pub mod input;
pub mod print;
pub mod schedules;
