// The functions that tell the machines apart.
ghost use Rattle.std.specs.Prelude.{◌≡◌, ◌<◌, length, get_or, take};
ghost use Rattle.machine_spec.specs.Rules.{may_commit, sees, may_load, may_lock, may_pass, leaves_mark};
ghost use Rattle.machine_lane.specs.Lanes.{flags, no_entry};
ghost use Rattle.machine_state.specs.States.{lane_of, Lies};

use crate::held::{count, marks, take};
use crate::search::{has_older, has_sync};
use crate::state::{CELLS, State, word_at};
use barrier_placement::cookbook::Barrier;
use machine_lane::lane::{is_sync, is_volatile};
use machine_lane::marks::no_mark;
use machine_spec::{Machine, Model};

// May the entry at an index commit? A match in a match: with guards a move that waits takes more (measured).
pub fn may_commit(
    machine: Machine,
    volatile: &[bool],
    state: &State,
    t: usize,
    index: usize,
) -> bool
    requires { Lies state.now t × (index < length (lane_of state.now t).pending) }
    ensures { result ≡ may_commit machine (flags volatile.now)
        (lane_of state.now t).control.marks (take index (lane_of state.now t).pending)
        (get_or (lane_of state.now t).pending index no_entry) }
{
    match machine {
        Machine::Source => {
            let cell = word_at(state, t, CELLS, index);
            if is_sync(volatile, cell) {
                index == 0
            } else {
                !has_older(state, t, index, cell)
            }
        }
        Machine::Target(model) => match model {
            Model::Tso => index == 0,
            Model::Pso => {
                if no_mark(index, marks(state, t)) {
                    !has_older(state, t, index, word_at(state, t, CELLS, index))
                } else {
                    false
                }
            }
        },
    }
}

// The value that a LOAD of location x takes, m being the memory's.
pub fn sees(machine: Machine, volatile: &[bool], state: &State, t: usize, x: u32, m: u32) -> u32
    requires { Lies state.now t × (x < 16) }
    ensures { result ≡ sees machine (flags volatile.now)
        (lane_of state.now t).pending x m }
{
    match machine {
        Machine::Source if is_volatile(volatile, x) => m,
        _ => take(state, t).newest(x, m),
    }
}

// May a LOAD of location x be carried out?
pub fn may_load(machine: Machine, volatile: &[bool], state: &State, t: usize, x: u32) -> bool
    requires { Lies state.now t }
    ensures { result ≡ may_load machine (flags volatile.now)
        (lane_of state.now t).pending x }
{
    match machine {
        Machine::Source => !(is_volatile(volatile, x) && has_sync(volatile, state, t)),
        Machine::Target(_) => true,
    }
}

// May a LOCK of a free lock be carried out?
pub fn may_lock(machine: Machine, volatile: &[bool], state: &State, t: usize) -> bool
    requires { Lies state.now t }
    ensures { result ≡ may_lock machine (flags volatile.now)
        (lane_of state.now t).pending }
{
    match machine {
        Machine::Source => !has_sync(volatile, state, t),
        Machine::Target(_) => count(state, t) == 0,
    }
}

// May a barrier be passed?
pub fn may_pass(machine: Machine, barrier: Barrier, state: &State, t: usize) -> bool
    requires { Lies state.now t }
    ensures { result ≡ may_pass machine barrier (lane_of state.now t).pending }
{
    match (machine, barrier) {
        (Machine::Target(_), Barrier::SL) => count(state, t) == 0,
        _ => true,
    }
}

// Does a barrier that is passed leave a mark?
pub fn leaves_mark(machine: Machine, barrier: Barrier) -> bool
    ensures { result ≡ leaves_mark machine barrier }
{
    matches!(
        (machine, barrier),
        (Machine::Target(Model::Pso), Barrier::SS)
    )
}
