// The instructions of a sheet, read from its bytes. Past the end every byte reads as 0.
ghost use Rattle.std.specs.Prelude.{◌≡◌, ◌+◌, ◌≤◌, length, drop};
ghost use Rattle.sheet_rows.specs.Rows.{row_in};

use crate::number::fits;
use file_format::fields::{byte_at, quad_at};

// The fields of an instruction: its code, a, b, and the constant or the target's position.
#[derive(Clone, Copy, PartialEq, Eq)]
pub struct Row {
    pub code: u8,
    pub a: u8,
    pub b: u8,
    pub word: u32,
}

// The instruction whose bytes begin at `at`, all eight of them.
pub fn whole_row(s: &[u8], at: usize) -> Row
    requires { at + 8 ≤ length s.now }
    ensures { result ≡ row_in (drop at s.now) }
{
    let lower = u32::from(s[at + 4]) + 256 * u32::from(s[at + 5]);
    let upper = u32::from(s[at + 6]) + 256 * u32::from(s[at + 7]);
    Row {
        code: s[at],
        a: s[at + 1],
        b: s[at + 2],
        word: lower + 65536 * upper,
    }
}

// The instruction whose bytes begin at `at`.
pub fn row_at(s: &[u8], at: usize) -> Row
    ensures { result ≡ row_in (drop at s.now) }
{
    if fits(s.len(), at) {
        return whole_row(s, at);
    }
    match s.get(at) {
        Some(code) => Row {
            code: *code,
            a: byte_at(s, at + 1),
            b: byte_at(s, at + 2),
            word: quad_at(s, at + 4),
        },
        None => Row {
            code: 0,
            a: 0,
            b: 0,
            word: 0,
        },
    }
}
