// Lowers the kernel files that the arguments name, and runs the schedule that follows each on the three machines. The
// words come in pairs, a kernel and a schedule; `-` stands for no schedule.
#![tactic(auto)]

mod kernels;
mod schedules;

use console::arguments::argument_count;
use kernels::tell_pairs;
use std::io;

fn main(rt: HostRuntime) -> io::Result<()> {
    tell_pairs(&rt, argument_count(&rt) / 2)
}
