// Words laid into a buffer: a decimal, a word with its number.
ghost use Rattle.std.specs.Prelude.{◌≡◌, ◌+◌, ◌<◌, ◌≤◌, ◌^◌, ◌++◌, length};
ghost use Rattle.text_put.specs.Decimal.{decimal};
ghost use Rattle.sheet_format.specs.Put.{Puts};

use crate::put::{put, put_text};

// The byte of a digit.
fn digit(n: u32) -> u8
    requires { n < 10 }
    ensures { result ≡ 48 + n }
{
    48 + (n as u8)
}

// The digits of n, highest first: at most ten.
pub fn put_decimal(out: &mut [u8], at: usize, n: u32) -> usize
    requires { at + 10 ≤ 2 ^ 62 }
    ensures { Puts out.old at (decimal n) out.new result }
{
    if n < 10 {
        return put(out, at, digit(n));
    }
    let behind = put_decimal(out, at, n / 10);
    put(out, behind, digit(n % 10))
}

// A word and its number: at most ten digits behind the word.
pub fn put_one(out: &mut [u8], at: usize, name: &[u8], b: u32) -> usize
    requires { at + length name.now + 10 ≤ 2 ^ 62 }
    ensures { (result ≤ at + length name.now + 10)
        × Puts out.old at (name.now ++ decimal b) out.new result }
{
    let i = put_text(out, at, name);
    put_decimal(out, i, b)
}
