// The state record that a run leaves for C: 2,280 bytes.
ghost use Rattle.std.specs.Prelude.{◌≡◌, ◌+◌, ◌≤◌, length, get_or};
ghost use Rattle.sheet_format.specs.Bytes.{quad_bytes, over};
ghost use Rattle.sheet_format.specs.Put.{Puts, in_turn};
ghost use Rattle.machine_spec.specs.State.{lane_at};
ghost use Rattle.machine_state.specs.States.{state_in, Sized, Lies};
ghost use Rattle.machine_record.specs.Lanes.{state_lane};
ghost use Rattle.machine_record.specs.Record.{double, head_bytes, record_of};
ghost use Rattle.machine_record.specs.SmallStates.{SmallLocks, SmallEntries, Small};

use crate::lane::write_lane;
use crate::put::flag;
use machine_lane::lane::Lane;
use machine_state::held::take;
use machine_state::shared::{lock_at, memory_at};
use machine_state::state::{COUNTS, LANES, SHARED, State};
use sheet_rows::number::wide;
use sheet_rows::put::{put_four, put_quad};

// A lane of zeros.
const NONE: Lane = Lane {
    at: 0,
    registers: [0; 8],
    cells: [0; 64],
    values: [0; 64],
    len: 0,
    low: 0,
    high: 0,
};

// A number of 64 bits.
fn put_double(out: &mut [u8], at: usize, n: usize) -> usize
    requires { at + 8 ≤ length out.old }
    ensures { Puts out.old at (double n) out.new result }
{
    let next = put_quad(out, at, n);
    put_quad(out, next, n / 4294967296)
}

fn lock_byte(state: &State, l: u8) -> u8
    requires sized { Sized state.now }
    requires small { SmallLocks (state_in state.now).locks }
    ensures { result ≡ get_or (state_in state.now).locks l 0 }
{
    lock_at(state, l) as u8
}

// The 16 values of memory; 0 past the last location.
fn put_memory(out: &mut [u8], at: usize, state: &State) -> usize
    requires room { at + 64 ≤ length out.old }
    requires sized { Sized state.now }
    ensures { Puts out.old at
        (in_turn (λ i. quad_bytes (get_or (state_in state.now).memory i 0)) 16) out.new result }
{
    let mut next = at;
    for x in 0..16 {
        next = put_quad(out, next, wide(memory_at(state, x)));
    }
    next
}

// What comes before the lanes: finished, lock words, moves done and waited, memory.
fn write_head(out: &mut [u8], finished: bool, done: usize, waited: usize, state: &State) -> usize
    requires room { 88 ≤ length out.old }
    requires sized { Sized state.now }
    requires small { SmallLocks (state_in state.now).locks }
    ensures { Puts out.old 0
        (head_bytes finished done waited (state_in state.now).memory (state_in state.now).locks)
        out.new result }
{
    let mut next = put_four(out, 0, flag(finished), 0, 0, 0);
    let a = lock_byte(state, 0);
    let b = lock_byte(state, 1);
    let c = lock_byte(state, 2);
    let d = lock_byte(state, 3);
    next = put_four(out, next, a, b, c, d);
    next = put_double(out, next, done);
    next = put_double(out, next, waited);
    put_memory(out, next, state)
}

// Lane t; past the last one it is all zero.
fn write_lane_at(out: &mut [u8], start: usize, t: usize, state: &State) -> usize
    requires room { start + 548 ≤ length out.old }
    requires lane { Lies state.now t }
    requires small { SmallEntries (state_in state.now) }
    ensures { Puts out.old start
        (state_lane (lane_at (state_in state.now) t)) out.new result }
{
    if t < wide(state[SHARED][COUNTS][LANES]) {
        return write_lane(out, start, &take(state, t));
    }
    write_lane(out, start, &NONE)
}

// The record at the front of `out`; what lies behind it stays.
pub fn write_state(out: &mut [u8], finished: bool, done: usize, waited: usize, state: &State)
    requires room { 2280 ≤ length out.old }
    requires sized { Sized state.now }
    requires small { Small (state_in state.now) }
    ensures { out.new ≡ over (record_of finished done waited (state_in state.now))
        out.old }
{
    let mut next = write_head(out, finished, done, waited, state);
    for t in 0..4 {
        next = write_lane_at(out, next, t, state);
    }
}
