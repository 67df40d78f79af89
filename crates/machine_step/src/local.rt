// Instructions that read and write a lane's registers and position only.
ghost use Rattle.std.specs.Prelude.{ℕ, Bool};
ghost use Rattle.file_format.specs.declared.accepted.Op.TheVariants.{Set, Add, Skip};
ghost use Rattle.sheet_format.specs.Layout.{op, barrier};
ghost use Rattle.machine_spec.specs.Step.{marks_past};
ghost use Rattle.machine_lane.specs.Lanes.{with_marks};
ghost use Rattle.machine_state.specs.Ready.{Ready};
ghost use Rattle.machine_state.specs.States.{lane_of, Lies, Became};
ghost use Rattle.machine_step.specs.Turns.{Carried};

use barrier_placement::cookbook::Barrier;
use machine_lane::marks::after_ss;
use machine_spec::Machine;
use machine_state::held::{count, go, marks, next_position, register, set_marks, write_register};
use machine_state::rules::{leaves_mark, may_pass};
use machine_state::state::{Moved, State};

// SET of register a.
pub(crate) fn set(a: u8, value: u32, t: usize, state: &mut State) -> Moved
    requires { Ready state.old t (op (Set a value)) }
    ensures { (m : Machine) (f : ℕ → Bool)
        → Carried m f (op (Set a value)) t state.old result state.new }
{
    let next = next_position(state, t);
    write_register(t, a, value, next, state);
    Moved::Done
}

// ADD of register b to register a, modulo 2^32.
pub(crate) fn add(a: u8, b: u8, t: usize, state: &mut State) -> Moved
    requires { Ready state.old t (op (Add a b)) }
    ensures { (m : Machine) (f : ℕ → Bool)
        → Carried m f (op (Add a b)) t state.old result state.new }
{
    let sum = std::num::wrapping_add_u32(register(state, t, a), register(state, t, b));
    let next = next_position(state, t);
    write_register(t, a, sum, next, state);
    Moved::Done
}

// SKIP to the target where register a is 0.
pub(crate) fn skip(a: u8, target: u32, t: usize, state: &mut State) -> Moved
    requires { Ready state.old t (op (Skip a target)) }
    ensures { (m : Machine) (f : ℕ → Bool)
        → Carried m f (op (Skip a target)) t state.old result state.new }
{
    let next = if register(state, t, a) == 0 {
        target
    } else {
        next_position(state, t)
    };
    go(t, next, state);
    Moved::Done
}

// What a barrier leaves in the pending list.
fn leave_mark(machine: Machine, kind: Barrier, t: usize, state: &mut State)
    requires { Lies state.old t }
    ensures { Became state.old t
        (with_marks (lane_of state.old t)
        (marks_past machine kind (lane_of state.old t).pending
        (lane_of state.old t).control.marks)) state.new }
{
    if leaves_mark(machine, kind) {
        let left = after_ss(count(state, t), marks(state, t));
        set_marks(t, left, state);
    }
}

// A barrier.
pub(crate) fn pass(machine: Machine, kind: Barrier, t: usize, state: &mut State) -> Moved
    requires { Ready state.old t (barrier kind) }
    ensures { (f : ℕ → Bool)
        → Carried machine f (barrier kind) t state.old result state.new }
{
    if !may_pass(machine, kind, state, t) {
        return Moved::Waited;
    }
    let next = next_position(state, t);
    leave_mark(machine, kind, t, state);
    go(t, next, state);
    Moved::Done
}
