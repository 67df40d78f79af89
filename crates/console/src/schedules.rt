// The schedule that an argument names.
ghost use Rattle.std.specs.Prelude.{◌≡◌, take, IfOk, IfSome, IfNone, MatchOption, OnErr};
ghost use Rattle.io.specs.Counts.{IsPrefixLen};
ghost use Rattle.text_schedule.specs.Text.{moves_of};

use crate::files::read_named;
use crate::print::{say, say_number};
use std::io;
use std::rt::{Env, Files};
use text_schedule::whole::{ScheduleError, read_schedule};

// Word by word: where standard output takes no more, the words before stand.
fn say_malformed(rt: &impl Print, line: usize) -> io::Result<()> {
    say(rt, b"schedule line ")?;
    say_number(rt, line)?;
    say(rt, b" is not a move\n")
}

// The moves of a text, two bytes each; if it is no schedule, that is said. An error is of standard output alone.
fn read_text(rt: &impl Print, text: &[u8], moves: &mut [u8]) -> io::Result<Option<usize>>
    ensures prefix_len { IfOk result (λ got. IfSome got (λ n. IsPrefixLen n moves.new)) }
    ensures moves_after { IfOk result (λ got. IfSome got (λ n. take n moves.new ≡ moves_of text.now)) }
    ensures none { IfOk result (λ got. IfNone got (moves.new ≡ moves.old)) }
    ensures err { OnErr result (moves.new ≡ moves.old) }
{
    match read_schedule(text, moves) {
        Ok(size) => return Ok(Some(size)),
        Err(ScheduleError::Malformed(line)) => say_malformed(rt, line)?,
        Err(ScheduleError::TooLong) => rt.println(ScheduleError::TooLong)?,
    }
    Ok(None)
}

// The moves of the schedule that argument i names; if it cannot be read, or is none, that is said. An error is of
// standard output alone, and leaves the moves as they were.
pub fn read_moves<R: Env + Files + Print>(
    rt: &R,
    i: usize,
    moves: &mut [u8],
) -> io::Result<Option<usize>>
    ensures prefix_len { IfOk result (λ got. IfSome got (λ n. IsPrefixLen n moves.new)) }
    ensures none { IfOk result (λ got. IfNone got (moves.new ≡ moves.old)) }
    ensures err { OnErr result (moves.new ≡ moves.old) }
{
    let mut text = [0u8; 65536];
    match read_named(rt, i, &mut text)? {
        Some(n) if n < text.len() => read_text(rt, &text[..n], moves),
        Some(_) => rt.println(ScheduleError::TooLong).map(|()| None),
        None => Ok(None),
    }
}
