// Prints the pages of the kernel file on standard input, or its refusal.
#![tactic(auto)]

use console::print::say_of_kernel;
use std::io;

fn main(rt: HostRuntime) -> io::Result<()> {
    say_of_kernel(&rt, &mut rt.stdin(), text_kernel::print_pages)
}
