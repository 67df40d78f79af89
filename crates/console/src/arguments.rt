// The words that the program was started with, of whatever bytes.
ghost use Rattle.io.specs.Counts.{IsPrefixLen};

use std::env::FillError;
use std::rt::Env;

// Argument i at the front of the buffer, and how many bytes it has: none where it is missing, or longer than the
// buffer. Every caller takes a missing word for an empty one, so no Option tells them apart.
pub fn argument(rt: &impl Env, i: usize, buf: &mut [u8]) -> usize
    ensures { IsPrefixLen result buf.new }
{
    rt.arg(i, buf).unwrap_or(0)
}

// How many arguments there are, with the program's name. No clause says so: that of `arg` ties no answer of it to
// another, nor to any list of words.
pub fn argument_count(rt: &impl Env) -> usize {
    let mut first = [0u8; 1];
    for i in 0..usize::MAX {
        if let Err(FillError::NotPresent) = rt.arg(i, &mut first) {
            return i;
        }
    }
    usize::MAX
}
