// Standard output. A text that cannot be written is an error.

use crate::input::read_full;
use sheet_format::WriteResult;
use std::io;
use std::io::Read;

pub fn say(rt: &impl Print, text: &[u8]) -> io::Result<()> {
    rt.write_all(text)
}

// The first `size` bytes of a text that has been laid.
pub fn say_part(rt: &impl Print, text: &[u8], size: usize) -> io::Result<()> {
    match text.get(..size) {
        Some(part) => say(rt, part),
        None => Ok(()),
    }
}

pub fn say_number(rt: &impl Print, n: usize) -> io::Result<()> {
    rt.print(n)
}

// The line of a refusal, of whatever number and record. It goes out word by word: where standard output takes no more,
// the words before stand.
pub fn say_refusal(rt: &impl Print, number: usize, rec: usize) -> io::Result<()> {
    say(rt, b"refused ")?;
    say_number(rt, number)?;
    say(rt, b" record ")?;
    say_number(rt, rec)?;
    say(rt, b"\n")
}

pub fn say_unread(rt: &impl Print, name: &[u8]) -> io::Result<()> {
    say(rt, b"cannot read ")?;
    say(rt, name)?;
    say(rt, b"\n")
}

// The text that `write` makes of the kernel file on the input. Of a file that is longer than every kernel, which is
// refused by its header or its length, the first 3,089 bytes are enough.
pub fn say_of_kernel<F: FnOnce(&[u8], &mut [u8]) -> WriteResult>(
    rt: &impl Print,
    input: &mut impl Read,
    write: F,
) -> io::Result<()>
    requires { F.IsAlwaysCallable write }
{
    let mut file = [0u8; 3089];
    let n = read_full(input, &mut file);
    let mut text = [0u8; 65536];
    match write(&file[..n], &mut text) {
        Ok(size) => say_part(rt, &text, size),
        Err(_) => Ok(()),
    }
}
