// Searches of the pending list of a lane, where it lies.
ghost use Rattle.std.specs.Prelude.{◌≡◌, ℕ, ◌≤◌, length, take};
ghost use Rattle.machine_spec.specs.Entries.{any_sync, any_same};
ghost use Rattle.machine_lane.specs.Lanes.{flags, entry_of};
ghost use Rattle.machine_state.specs.States.{lane_of, Lies};

use crate::held::count;
use crate::state::{CELLS, State, word_at};
use machine_lane::lane::is_sync;

// Whether a volatile store or a release is pending.
pub fn has_sync(volatile: &[bool], state: &State, t: usize) -> bool
    requires { Lies state.now t }
    ensures { result ≡ any_sync (flags volatile.now) (lane_of state.now t).pending }
{
    let n = count(state, t);
    for i in 0..n {
        if is_sync(volatile, word_at(state, t, CELLS, i)) {
            return true;
        }
    }
    false
}

// Whether one of the first n entries is for the cell.
pub fn has_older(state: &State, t: usize, n: usize, cell: u32) -> bool
    requires { Lies state.now t × (n ≤ length (lane_of state.now t).pending) }
    ensures { (v : ℕ) → result ≡ any_same (entry_of cell v) (take n (lane_of state.now t).pending) }
{
    for i in 0..n {
        if word_at(state, t, CELLS, i) == cell {
            return true;
        }
    }
    false
}
