// A lane of the state record: position, number of pending entries, registers, and 64 places for entries.
ghost use Rattle.std.specs.Prelude.{◌+◌, ◌≤◌, ◌<◌, length, IfSome};
ghost use Rattle.sheet_format.specs.Put.{Puts};
ghost use Rattle.machine_lane.specs.Lanes.{entry_of, lane_in};
ghost use Rattle.machine_record.specs.Lanes.{entry_bytes, entry_in, place_bytes, entries_bytes, state_lane};
ghost use Rattle.machine_record.specs.SmallCells.{SmallCells};

use crate::put::{flag, put_table};
use machine_lane::lane::Lane;
use machine_lane::marks::mark_at;
use sheet_rows::put::{put_words, store_row};

// A pending entry: kind 1 is a store, 2 the release of a lock; 1 where a mark stands directly behind it.
fn write_entry(out: &mut [u8], at: usize, cell: u32, value: u32, mark: bool) -> usize
    requires room { at + 8 ≤ length out.old }
    requires small { cell < 272 }
    ensures { Puts out.old at (entry_bytes mark (entry_of cell value)) out.new result }
{
    if cell < 16 {
        return store_row(out, at, 1, cell as u8, flag(mark), value);
    }
    store_row(out, at, 2, (cell - 16) as u8, flag(mark), 0)
}

// A place for a pending entry, its cell and its value: zero where there is none.
fn write_place(out: &mut [u8], at: usize, entry: Option<(u32, u32)>, mark: bool) -> usize
    requires room { at + 8 ≤ length out.old }
    requires small { IfSome entry (λ e. e.0 < 272) }
    ensures { Puts out.old at
        (place_bytes mark (entry_in entry)) out.new result }
{
    match entry {
        Some((cell, value)) => write_entry(out, at, cell, value, mark),
        None => store_row(out, at, 0, 0, 0, 0),
    }
}

// The 64 places of a lane, of which the first `len` have an entry, with the marks behind them.
fn write_entries(out: &mut [u8], at: usize, lane: &Lane) -> usize
    requires room { at + 512 ≤ length out.old }
    requires small { SmallCells lane.now.cells lane.now.len }
    ensures { Puts out.old at
        (entries_bytes 64 (lane_in lane.now).control.marks (lane_in lane.now).pending) out.new result }
{
    let len = lane.len as usize;
    let marks = lane.marks();
    let mut next = at;
    for i in 0..64 {
        let entry = if i < len {
            Some((lane.cells[i], lane.values[i]))
        } else {
            None
        };
        next = write_place(out, next, entry, mark_at(marks, i));
    }
    next
}

// The 548 bytes of a lane.
pub fn write_lane(out: &mut [u8], start: usize, lane: &Lane) -> usize
    requires room { start + 548 ≤ length out.old }
    requires small { SmallCells lane.now.cells lane.now.len }
    ensures { Puts out.old start (state_lane (lane_in lane.now)) out.new result }
{
    let mut next = put_words(out, start, lane.at as usize, lane.count());
    next = put_table(out, next, &lane.registers, 8);
    write_entries(out, next, lane)
}
