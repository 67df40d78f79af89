// A machine's program from a kernel file; a legal schedule from its rows to the state record; what such runs reach.
#![tactic(auto)]

pub mod extent;
pub mod program;
pub mod run;
