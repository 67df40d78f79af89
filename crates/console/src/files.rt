// The files that the arguments name.
ghost use Rattle.std.specs.Prelude.{◌≡◌, length, IfOk, IfSome, OnErr};
ghost use Rattle.io.specs.Counts.{IsPrefixLen};

use crate::arguments::argument;
use crate::input::read_full;
use crate::print::say_unread;
use std::io::Read;
use std::rt::{Env, Files};
use std::{fs, io};

// How many bytes of an open file were read. A read that fails at once, as of a folder, is told from an empty file by
// another.
fn read_open(file: &mut impl Read, buf: &mut [u8]) -> Option<usize>
    ensures { IfSome result (λ n. IsPrefixLen n buf.new) }
{
    let size = read_full(file, buf);
    if size == 0 && file.read(buf).is_err() {
        return None;
    }
    Some(size)
}

// The file of that name. One whose name is no text cannot be opened.
fn read_file(files: &impl Files, name: &[u8], buf: &mut [u8]) -> Option<usize>
    ensures { IfSome result (λ n. IsPrefixLen n buf.new) }
{
    let path = str::from_utf8(name).ok()?;
    let mut file = fs::open(files, path).ok()?;
    read_open(&mut file, buf)
}

// The file that argument i names, as far as the buffer reaches; if it cannot be read, that is said. An error is of
// standard output alone, and leaves the buffer with whatever a read that failed put there.
pub fn read_named<R: Env + Files + Print>(
    rt: &R,
    i: usize,
    buf: &mut [u8],
) -> io::Result<Option<usize>>
    ensures prefix_len { IfOk result (λ got. IfSome got (λ n. IsPrefixLen n buf.new)) }
    ensures err { OnErr result (length buf.new ≡ length buf.old) }
{
    let mut name = [0u8; 4096];
    let n = argument(rt, i, &mut name);
    let got = read_file(rt, &name[..n], buf);
    if got.is_none() {
        say_unread(rt, &name[..n])?;
    }
    Ok(got)
}
