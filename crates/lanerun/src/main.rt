// Runs a schedule of text on a kernel file and tells each move and the state at the end. The last line says how it
// ended: `ran`, the line of a refusal, or what could not be read.
#![tactic(auto)]

mod files;
mod tell;

use console::arguments::{argument, argument_count};
use console::print::say;
use files::run_files;
use machine_spec::{Machine, Model};
use std::io;

fn main(rt: HostRuntime) -> io::Result<()> {
    let mut name = [0u8; 4096];
    let n = argument(&rt, 2, &mut name);
    match machine_named(&name[..n]) {
        Some(machine) if argument_count(&rt) == 4 => run_files(&rt, machine),
        _ => say(&rt, b"usage: lanerun KERNEL source|tso|pso SCHEDULE\n"),
    }
}

fn machine_named(name: &[u8]) -> Option<Machine> {
    match name {
        b"source" => Some(Machine::Source),
        b"tso" => Some(Machine::Target(Model::Tso)),
        b"pso" => Some(Machine::Target(Model::Pso)),
        _ => None,
    }
}
