// A schedule of text, run on the three machines.
ghost use Rattle.std.specs.Prelude.{◌≤◌, length};

use crate::kernels::say_argument;
use console::arguments::argument;
use console::print::{say_part, say_refusal};
use console::schedules::read_moves;
use file_verdict::number::{number_of, record_of};
use machine_spec::{Machine, Model};
use std::io;
use std::rt::{Env, Files};
use text_run::whole::tell_end;

// The schedule that argument i names, if it names one.
pub(crate) fn tell_schedule<R: Env + Files + Print>(
    rt: &R,
    i: usize,
    file: &[u8],
) -> io::Result<()> {
    let mut name = [0u8; 4096];
    let n = argument(rt, i, &mut name);
    if matches!(&name[..n], b"-") {
        return Ok(());
    }
    let mut moves = [0u8; 65536];
    if let Some(size) = read_moves(rt, i, &mut moves)? {
        tell_runs(rt, i, file, &moves[..size])?;
    }
    Ok(())
}

fn tell_runs<R: Env + Print>(rt: &R, i: usize, file: &[u8], moves: &[u8]) -> io::Result<()>
    requires { length moves.now ≤ 65536 }
{
    let machines = [
        ("source", Machine::Source),
        ("tso", Machine::Target(Model::Tso)),
        ("pso", Machine::Target(Model::Pso)),
    ];
    for (name, machine) in machines {
        say_argument(rt, i)?;
        rt.println(name)?;
        tell_run(rt, machine, file, moves)?;
    }
    Ok(())
}

fn tell_run(rt: &impl Print, machine: Machine, file: &[u8], moves: &[u8]) -> io::Result<()>
    requires { length moves.now ≤ 65536 }
{
    let mut text = [0u8; 65536];
    match tell_end(machine, file, moves, &mut text) {
        Ok(size) => say_part(rt, &text, size),
        Err(refusal) => say_refusal(rt, number_of(refusal), record_of(refusal)),
    }
}
