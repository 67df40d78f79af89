// The kernel file and the schedule that the arguments name.
use crate::tell::run_and_tell;
use console::files::read_named;
use console::schedules::read_moves;
use machine_spec::Machine;
use std::io;
use std::rt::{Env, Files};

// The kernel file, of which the first 3,089 bytes are enough: any file that is longer is refused by its header or its
// length.
pub(crate) fn run_files<R: Env + Files + Print>(rt: &R, machine: Machine) -> io::Result<()> {
    let mut file = [0u8; 3089];
    if let Some(n) = read_named(rt, 1, &mut file)? {
        run_schedule(rt, machine, &file[..n])?;
    }
    Ok(())
}

// The schedule.
fn run_schedule<R: Env + Files + Print>(rt: &R, machine: Machine, file: &[u8]) -> io::Result<()> {
    let mut moves = [0u8; 65536];
    if let Some(n) = read_moves(rt, 3, &mut moves)? {
        run_and_tell(rt, machine, file, &moves[..n])?;
    }
    Ok(())
}
