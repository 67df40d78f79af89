// Rows of numbers in a state record.
ghost use Rattle.std.specs.Prelude.{◌≡◌, ◌+◌, ◌*◌, ◌≤◌, ◌<◌, ◌^◌, length};
ghost use Rattle.sheet_format.specs.Put.{Puts};
ghost use Rattle.text_run.specs.Lanes.{number_at, numbers_line};

use file_format::fields::{byte_at, quad_at};
use text_put::put::{put, put_text};
use text_put::words::put_one;

// A number of a row: a byte, or four.
#[derive(Clone, Copy)]
pub(crate) enum Width {
    Byte,
    Quad,
}

// Number i of those that lie from `base` on.
fn number_at(s: &[u8], base: usize, width: Width, i: u8) -> u32
    requires { base < 2 ^ 32 }
    ensures { result ≡ number_at s.now base width i }
{
    match width {
        Width::Byte => byte_at(s, base + (i as usize)) as u32,
        Width::Quad => quad_at(s, base + 4 * (i as usize)),
    }
}

// A word, n of these numbers, each behind a space, and the end of the line.
pub(crate) fn put_numbers_line(
    out: &mut [u8],
    start: usize,
    word: &[u8],
    s: &[u8],
    base: usize,
    width: Width,
    n: u8,
) -> usize
    requires { (start + length word.now + 11 * n + 1 ≤ 2 ^ 62) × (base < 2 ^ 32) }
    ensures { (result ≤ start + length word.now + 11 * n + 1)
        × Puts out.old start
        (numbers_line word.now (number_at s.now base width) n) out.new result }
{
    let mut at = put_text(out, start, word);
    for i in 0..n {
        at = put_one(out, at, b" ", number_at(s, base, width, i));
    }
    put(out, at, b'\n')
}
