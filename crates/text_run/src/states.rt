// The state at the end of a run.
ghost use Rattle.std.specs.Prelude.{◌+◌, ◌≤◌, ◌^◌, ◌++◌};
ghost use Rattle.file_format.specs.Fields.{byte};
ghost use Rattle.sheet_format.specs.Put.{Puts};
ghost use Rattle.machine_record.specs.Fields.{fields_in};
ghost use Rattle.text_run.specs.States.{counts_line, finished_line, memory_line, locks_line, state_text};

use crate::lane::put_lane;
use crate::numbers::{Width, put_numbers_line};
use file_format::fields::{byte_at, quad_at};
use text_put::put::{put, put_text};
use text_put::words::put_one;

// How many moves were done, and how many waited.
fn put_counts(out: &mut [u8], s: &[u8]) -> usize
    ensures { (result ≤ 34)
        × Puts out.old 0 (counts_line (fields_in s.now)) out.new result }
{
    let i = put_one(out, 0, b"done ", quad_at(s, 8));
    let j = put_one(out, i, b" waited ", quad_at(s, 16));
    put(out, j, b'\n')
}

fn put_finished(out: &mut [u8], at: usize, s: &[u8]) -> usize
    requires { at + 13 ≤ 2 ^ 62 }
    ensures { (result ≤ at + 13)
        × Puts out.old at (finished_line (fields_in s.now)) out.new result }
{
    if byte_at(s, 0) == 1 {
        let i = put_text(out, at, b"finished yes");
        return put(out, i, b'\n');
    }
    let i = put_text(out, at, b"finished no");
    put(out, i, b'\n')
}

// What comes before the lanes; the rows tell how many locations and locks there are.
fn put_head(out: &mut [u8], s: &[u8], rows: &[u8]) -> usize
    ensures { (result ≤ 5670)
        × Puts out.old 0
        (counts_line (fields_in s.now) ++ finished_line (fields_in s.now)
        ++ memory_line (fields_in s.now) (byte rows.now 1)
        ++ locks_line (fields_in s.now) (byte rows.now 2))
        out.new result }
{
    let i = put_counts(out, s);
    let j = put_finished(out, i, s);
    let k = put_numbers_line(out, j, b"memory", s, 24, Width::Quad, byte_at(rows, 1));
    put_numbers_line(out, k, b"locks", s, 4, Width::Byte, byte_at(rows, 2))
}

// The text of a state record, as far as the buffer reaches; the rows tell how many lanes there are, too.
pub fn tell_state(out: &mut [u8], record: &[u8], rows: &[u8]) -> usize
    ensures { Puts out.old 0
        (state_text «record».now (byte rows.now 0) (byte rows.now 1)
        (byte rows.now 2)) out.new result }
{
    let lanes = byte_at(rows, 0);
    let mut at = put_head(out, record, rows);
    for t in 0..lanes {
        at = put_lane(out, at, record, t);
    }
    at
}
