// A lane's commit of a pending entry.
ghost use Rattle.machine_spec.specs.Marks.{after_commit};
ghost use Rattle.machine_spec.specs.Step.{landed, freed};
ghost use Rattle.machine_lane.specs.Lanes.{flags, entry_of, with_marks};
ghost use Rattle.machine_state.specs.States.{lane_of, state_in, Sized, Lies, Became, Shared};
ghost use Rattle.machine_step.specs.Turns.{commits, Took};

use machine_lane::marks::after_commit;
use machine_spec::Machine;
use machine_state::held::{count, marks, put_list, set_marks, take};
use machine_state::rules::may_commit;
use machine_state::shared::{set_lock, set_memory};
use machine_state::state::{CELLS, Moved, State, VALUES, word_at};

// An entry's value reaches memory, or its lock is free.
fn settle(cell: u32, value: u32, state: &mut State)
    requires { Sized state.old }
    ensures { Shared state.old
        (landed (state_in state.old).memory (entry_of cell value))
        (freed (state_in state.old).locks (entry_of cell value)) state.new }
{
    if cell < 16 {
        set_memory(cell, value, state);
    } else {
        set_lock(cell - 16, 0, state);
    }
}

// What a commit leaves of the marks; none is the rule, and then nothing is written.
fn shift_marks(t: usize, state: &mut State)
    requires { Lies state.old t }
    ensures { Became state.old t
        (with_marks (lane_of state.old t)
        (after_commit (lane_of state.old t).control.marks)) state.new }
{
    let all = marks(state, t);
    if all != 0 {
        set_marks(t, after_commit(all), state);
    }
}

// The entry at an index, where there is one and it may commit.
pub fn commit(
    machine: Machine,
    volatile: &[bool],
    index: usize,
    t: usize,
    state: &mut State,
) -> Moved
    requires { Lies state.old t }
    ensures { Took state.old t
        (commits machine (flags volatile.now) state.old t index) result state.new }
{
    if index >= count(state, t) {
        return Moved::Waited;
    }
    if !may_commit(machine, volatile, state, t, index) {
        return Moved::Waited;
    }
    // the list is taken before anything is written
    let rest = take(state, t).commit(index);
    settle(
        word_at(state, t, CELLS, index),
        word_at(state, t, VALUES, index),
        state,
    );
    put_list(rest, t, state);
    shift_marks(t, state);
    Moved::Done
}
