// A kernel file, lowered to the three levels.
ghost use Rattle.std.specs.Prelude.{◌+◌, ◌<◌, ◌^◌};

use crate::schedules::tell_schedule;
use console::arguments::argument;
use console::files::read_named;
use console::print::{say, say_number, say_refusal};
use file_verdict::number::{number_of, record_of};
use sheet_format::WriteResult;
use sheet_lower::lower::{lower1, lower2, lower3};
use std::io;
use std::rt::{Env, Files};

pub(crate) fn tell_pairs<R: Env + Files + Print>(rt: &R, n: usize) -> io::Result<()>
    requires { n < 2 ^ 63 }
{
    for i in 0..n {
        tell_pair(rt, 2 * i + 1)?;
    }
    Ok(())
}

// Argument i, and the schedule behind it.
fn tell_pair<R: Env + Files + Print>(rt: &R, i: usize) -> io::Result<()>
    requires { i + 1 < 2 ^ 64 }
{
    let mut file = [0u8; 3089];
    if let Some(n) = read_named(rt, i, &mut file)? {
        say_argument(rt, i)?;
        tell_kernel(rt, &file[..n])?;
        tell_schedule(rt, i + 1, &file[..n])?;
    }
    Ok(())
}

pub(crate) fn say_argument<R: Env + Print>(rt: &R, i: usize) -> io::Result<()> {
    let mut name = [0u8; 4096];
    let n = argument(rt, i, &mut name);
    say(rt, &name[..n])?;
    say(rt, b" ")
}

// The bytes of its three sheets, or why it is refused: every level refuses alike.
fn tell_kernel(rt: &impl Print, file: &[u8]) -> io::Result<()> {
    let mut sheet = [0u8; 6160];
    match lower1(file, &mut sheet) {
        Ok(size) => {
            say(rt, b"level 1 ")?;
            say_number(rt, size)?;
            let second = lower2(file, &mut sheet);
            say(rt, b" bytes level 2 ")?;
            say_size(rt, second)?;
            let third = lower3(file, &mut sheet);
            say(rt, b" bytes level 3 ")?;
            say_size(rt, third)?;
            say(rt, b" bytes\n")
        }
        Err(refusal) => say_refusal(rt, number_of(refusal), record_of(refusal)),
    }
}

fn say_size(rt: &impl Print, answer: WriteResult) -> io::Result<()> {
    match answer {
        Ok(size) => say_number(rt, size),
        Err(refusal) => say_refusal(rt, number_of(refusal), record_of(refusal)),
    }
}
