// The calls from C, include/lanes.h: each is the function of its name in `lanes`.
#![tactic(auto)]

mod lower;
mod page;
mod run;
