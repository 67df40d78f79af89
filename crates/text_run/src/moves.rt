// The line of a move.
ghost use Rattle.std.specs.Prelude.{◌+◌, ◌≤◌, ◌^◌};
ghost use Rattle.sheet_format.specs.Put.{Puts};
ghost use Rattle.sheet_format.specs.Read.{instr_by};
ghost use Rattle.machine_record.specs.Fields.{fields_in};
ghost use Rattle.text_run.specs.Places.{next_instr};
ghost use Rattle.text_run.specs.Moves.{loaded_text, carried_text, done_text, outcome_text, move_line};

use crate::entry::put_entry;
use crate::names::put_named;
use crate::places::{entry_from, next_row, register_at};
use file_format::fields::quad_at;
use machine_spec::Machine;
use sheet_format::code::Code;
use sheet_rows::read::{Row, row_at};
use text_put::put::{put, put_text};
use text_put::words::{put_decimal, put_one};

// Behind a LOAD the value that its register took.
fn put_loaded(out: &mut [u8], at: usize, row: Row, after: &[u8], t: u8) -> usize
    requires { at + 17 ≤ 2 ^ 62 }
    ensures { (result ≤ at + 17)
        × Puts out.old at
        (loaded_text (instr_by row.code row.a row.b row.word) (fields_in after.now) t)
        out.new result }
{
    if Code::from(u32::from(row.code)) == Code::Load {
        return put_one(out, at, b" value ", register_at(after, t, row.a));
    }
    at
}

// The instruction that lane t carried out.
fn put_carried(
    out: &mut [u8],
    at: usize,
    machine: Machine,
    rows: &[u8],
    before: &[u8],
    after: &[u8],
    t: u8,
) -> usize
    requires { at + 45 ≤ 2 ^ 62 }
    ensures { (result ≤ at + 45)
        × Puts out.old at
        (carried_text machine (next_instr rows.now (fields_in before.now) t)
        (fields_in after.now) t) out.new result }
{
    let row = row_at(rows, next_row(rows, before, t));
    let i = put_named(out, at, machine, row);
    put_loaded(out, i, row, after, t)
}

// What was carried out, or which entry was committed.
fn put_done(
    out: &mut [u8],
    at: usize,
    machine: Machine,
    rows: &[u8],
    before: &[u8],
    after: &[u8],
    t: u8,
    c: u8,
) -> usize
    requires { at + 51 ≤ 2 ^ 62 }
    ensures { (result ≤ at + 51)
        × Puts out.old at
        (done_text machine (next_instr rows.now (fields_in before.now) t)
        (fields_in before.now) (fields_in after.now) t c) out.new result }
{
    let i = put_text(out, at, b" done ");
    if c == 0 {
        return put_carried(out, i, machine, rows, before, after, t);
    }
    let j = put_text(out, i, b"commits ");
    let from = entry_from(t, (c - 1) as usize);
    put_entry(out, j, before, from)
}

// What came of a move.
fn put_outcome(
    out: &mut [u8],
    at: usize,
    machine: Machine,
    rows: &[u8],
    before: &[u8],
    after: &[u8],
    t: u8,
    c: u8,
) -> usize
    requires { at + 51 ≤ 2 ^ 62 }
    ensures { (result ≤ at + 51)
        × Puts out.old at
        (outcome_text machine (next_instr rows.now (fields_in before.now) t)
        (fields_in before.now) (fields_in after.now) t c) out.new result }
{
    if quad_at(before, 8) == quad_at(after, 8) {
        return put_text(out, at, b" waited");
    }
    put_done(out, at, machine, rows, before, after, t, c)
}

// The line of move n, which names lane t and choice c, from the program's rows and the state records before and after
// the move: as far as the buffer reaches.
pub fn tell_move(
    out: &mut [u8],
    machine: Machine,
    rows: &[u8],
    before: &[u8],
    after: &[u8],
    n: u32,
    t: u8,
    c: u8,
) -> usize
    ensures { (result ≤ 128)
        × Puts out.old 0
        (move_line machine rows.now before.now after.now n t c) out.new result }
{
    let i = put_decimal(out, 0, n);
    let j = put_one(out, i, b" lane ", t as u32);
    let k = put_one(out, j, b" choice ", c as u32);
    let end = put_outcome(out, k, machine, rows, before, after, t, c);
    put(out, end, b'\n')
}
