// A lane of the borrowed state: its parts are read and written in place, or it is taken as a whole.
ghost use Rattle.std.specs.Prelude.{◌≡◌, [], suc, ◌<◌, ◌≤◌, length, get_or};
ghost use Rattle.std.proofs.Math.Option.{some};
ghost use Rattle.machine_spec.specs.Entries.{append_entry};
ghost use Rattle.machine_lane.specs.Lanes.{Appended, entry_of, lane_in, placed_at};
ghost use Rattle.machine_lane.specs.Lanes.{with_marks, with_pending, with_register};
ghost use Rattle.machine_state.specs.States.{HEAD, firsts, word_at, stored_in, lane_of, Lies, Became};

use crate::state::{
    CELLS, HEAD, HIGHMARKS, LENGTH, MARKS, POSITION, State, VALUES, put_word, word_at,
};
use machine_lane::lane::Lane;
use machine_lane::marks::whole;

// The position of lane t.
pub fn position(state: &State, t: usize) -> u32
    requires { t < 4 }
    ensures { result ≡ (lane_of state.now t).control.pos }
{
    word_at(state, t, HEAD, POSITION)
}

// The position after it.
pub fn next_position(state: &State, t: usize) -> u32
    requires { (t < 4) × ((lane_of state.now t).control.pos < 65536) }
    ensures { result ≡ suc (lane_of state.now t).control.pos }
{
    position(state, t) + 1
}

// Register a of lane t.
pub fn register(state: &State, t: usize, a: u8) -> u32
    requires { Lies state.now t }
    ensures { result ≡ get_or (lane_of state.now t).regs a 0 }
{
    let i = usize::from(a);
    if i < 8 { word_at(state, t, HEAD, i) } else { 0 }
}

// How many entries lane t has pending.
pub fn count(state: &State, t: usize) -> usize
    requires { Lies state.now t }
    ensures { (result ≡ length (lane_of state.now t).pending) × (result ≤ 64) }
{
    (word_at(state, t, HEAD, LENGTH) as usize).min(64)
}

// The marks in the pending list of lane t.
pub fn marks(state: &State, t: usize) -> u64
    requires { t < 4 }
    ensures { result ≡ (lane_of state.now t).control.marks }
{
    whole(
        word_at(state, t, HEAD, MARKS),
        word_at(state, t, HEAD, HIGHMARKS),
    )
}

// Word by word: where a move uses no register the compiler then drops them; with copy_from_slice it copies them.
fn registers(state: &State, t: usize) -> [u32; 8]
    requires { t < 4 }
    ensures { result ≡ firsts 8 (word_at state.now t HEAD) }
{
    [
        state[t][HEAD][0],
        state[t][HEAD][1],
        state[t][HEAD][2],
        state[t][HEAD][3],
        state[t][HEAD][4],
        state[t][HEAD][5],
        state[t][HEAD][6],
        state[t][HEAD][7],
    ]
}

// Lane t as a whole.
pub fn take(state: &State, t: usize) -> Lane
    requires { Lies state.now t }
    ensures { result ≡ stored_in (get_or state.now t []) }
{
    Lane {
        at: word_at(state, t, HEAD, POSITION),
        registers: registers(state, t),
        cells: state[t][CELLS],
        values: state[t][VALUES],
        len: word_at(state, t, HEAD, LENGTH),
        low: word_at(state, t, HEAD, MARKS),
        high: word_at(state, t, HEAD, HIGHMARKS),
    }
}

// Lane t goes to a position.
pub fn go(t: usize, next: u32, state: &mut State)
    requires { Lies state.old t }
    ensures { Became state.old t (placed_at (lane_of state.old t) next) state.new }
{
    put_word(t, HEAD, POSITION, next, state);
}

// The marks in the pending list of lane t become others.
pub fn set_marks(t: usize, marks: u64, state: &mut State)
    requires { Lies state.old t }
    ensures { Became state.old t (with_marks (lane_of state.old t) marks)
        state.new }
{
    put_word(t, HEAD, MARKS, (marks % 4294967296) as u32, state);
    put_word(t, HEAD, HIGHMARKS, (marks / 4294967296) as u32, state);
}

// Register a of lane t becomes a value.
fn set_register(t: usize, a: u8, value: u32, state: &mut State)
    requires { Lies state.old t }
    ensures { Became state.old t (with_register (lane_of state.old t) a value)
        state.new }
{
    let i = usize::from(a);
    if i < 8 {
        put_word(t, HEAD, i, value, state);
    }
}

// Lane t, at `next` with a register's value.
pub fn write_register(t: usize, a: u8, value: u32, next: u32, state: &mut State)
    requires { Lies state.old t }
    ensures { Became state.old t
        (placed_at (with_register (lane_of state.old t) a value) next) state.new }
{
    set_register(t, a, value, state);
    go(t, next, state);
}

// The lane's newest entry becomes the newest of lane t, which has one fewer.
fn put_newest(lane: Lane, t: usize, state: &mut State)
    requires { Lies state.old t × (lane.len ≡ suc (stored_in (get_or state.old t [])).len) × (lane.len ≤ 64) }
    ensures { Became state.old t
        (with_pending (lane_of state.old t)
        (append_entry (lane_of state.old t).pending
        (some (entry_of (get_or lane.cells (stored_in (get_or state.old t [])).len 0)
        (get_or lane.values (stored_in (get_or state.old t [])).len 0)))))
        state.new }
{
    let n = lane.len as usize - 1;
    let c = lane.cells;
    let v = lane.values;
    put_word(t, CELLS, n, c[n], state);
    put_word(t, VALUES, n, v[n], state);
    put_word(t, HEAD, LENGTH, lane.len, state);
}

// The lane's pending list becomes that of lane t.
pub fn put_list(lane: Lane, t: usize, state: &mut State)
    requires { Lies state.old t }
    ensures { Became state.old t
        (with_pending (lane_of state.old t) (lane_in lane).pending) state.new }
{
    let c = lane.cells;
    state[t][CELLS] = c;
    let v = lane.values;
    state[t][VALUES] = v;
    put_word(t, HEAD, LENGTH, lane.len, state);
}

// The lane with one more pending entry. Lanes go by value from here on: with a lane that is lent, the ways on which a
// move waits are no longer compiled apart from the others, and a commit that waits takes half as much again (measured).
fn appended(mut lane: Lane, cell: u32, value: u32) -> Lane
    requires { length (lane_in lane).pending < 64 }
    ensures { Appended lane cell value result }
{
    lane.append(cell, value);
    lane
}

// Lane t, at `next` with one entry more pending.
pub fn issue(t: usize, cell: u32, value: u32, next: u32, state: &mut State)
    requires { Lies state.old t × (length (lane_of state.old t).pending < 64) }
    ensures { Became state.old t
        (placed_at (with_pending (lane_of state.old t)
        (append_entry (lane_of state.old t).pending (some (entry_of cell value)))) next)
        state.new }
{
    put_newest(appended(take(state, t), cell, value), t, state);
    go(t, next, state);
}
