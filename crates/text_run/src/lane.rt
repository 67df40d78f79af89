// A lane of a state record as text: its line, and lines for its pending entries and their marks.
ghost use Rattle.std.specs.Prelude.{◌+◌, ◌≤◌, ◌<◌, ◌^◌, eqb};
ghost use Rattle.file_format.specs.Fields.{byte};
ghost use Rattle.sheet_format.specs.Put.{Puts};
ghost use Rattle.machine_record.specs.Fields.{fields_in};
ghost use Rattle.text_run.specs.Lanes.{lane_line, mark_text, pending_line, lane_text};

use crate::entry::put_entry;
use crate::numbers::{Width, put_numbers_line};
use crate::places::{entry_from, lane_from};
use file_format::fields::{byte_at, word_at};
use text_put::put::{put, put_text};
use text_put::words::put_one;

// Position and registers of lane t.
fn put_lane_line(out: &mut [u8], at: usize, s: &[u8], t: u8) -> usize
    requires { at + 134 ≤ 2 ^ 62 }
    ensures { (result ≤ at + 134)
        × Puts out.old at (lane_line (fields_in s.now) t) out.new result }
{
    let i = put_one(out, at, b"lane ", t as u32);
    let from = lane_from(t);
    let j = put_one(out, i, b" position ", u32::from(word_at(s, from)));
    put_numbers_line(out, j, b" registers", s, from + 4, Width::Quad, 8)
}

// The mark behind the entry whose bytes begin at `from`: its byte 2 is 1 where there is one.
fn put_mark(out: &mut [u8], at: usize, s: &[u8], t: u8, from: usize) -> usize
    requires { (at + 27 ≤ 2 ^ 62) × (from < 2 ^ 24) }
    ensures { (result ≤ at + 27)
        × Puts out.old at (mark_text (eqb (byte s.now (from + 2)) 1) t) out.new result }
{
    if byte_at(s, from + 2) == 1 {
        let i = put_one(out, at, b"lane ", t as u32);
        return put_text(out, i, b" pending SS\n");
    }
    at
}

// The entry in place i of its pending list, and its mark.
fn put_pending(out: &mut [u8], at: usize, s: &[u8], t: u8, i: u16) -> usize
    requires { at + 88 ≤ 2 ^ 62 }
    ensures { (result ≤ at + 88)
        × Puts out.old at (pending_line (fields_in s.now) t i) out.new result }
{
    let j = put_one(out, at, b"lane ", t as u32);
    let k = put_text(out, j, b" pending ");
    let from = entry_from(t, i as usize);
    let m = put_entry(out, k, s, from);
    let end = put(out, m, b'\n');
    put_mark(out, end, s, t, from)
}

// Lane t and its pending entries with their marks, oldest first.
pub(crate) fn put_lane(out: &mut [u8], start: usize, s: &[u8], t: u8) -> usize
    requires { start + 2 ^ 23 ≤ 2 ^ 62 }
    ensures { (result ≤ start + 2 ^ 23)
        × Puts out.old start (lane_text (fields_in s.now) t) out.new result }
{
    let count = word_at(s, lane_from(t) + 2);
    let mut at = put_lane_line(out, start, s, t);
    for i in 0..count {
        at = put_pending(out, at, s, t, i);
    }
    at
}
