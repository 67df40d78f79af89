// LOAD and STORE. Whether the move waits is decided before anything is written.
ghost use Rattle.std.specs.Prelude.{ℕ, Bool};
ghost use Rattle.file_format.specs.declared.accepted.Op.TheVariants.{Load, Store};
ghost use Rattle.sheet_format.specs.Layout.{op};
ghost use Rattle.machine_lane.specs.Lanes.{flags};
ghost use Rattle.machine_state.specs.Ready.{Ready};
ghost use Rattle.machine_step.specs.Turns.{Carried};

use machine_spec::Machine;
use machine_state::held::{issue, next_position, register, write_register};
use machine_state::rules::{may_load, sees};
use machine_state::shared::memory_at;
use machine_state::state::{Moved, State};

// LOAD of location x into register a.
pub(crate) fn load(
    machine: Machine,
    volatile: &[bool],
    a: u8,
    x: u8,
    t: usize,
    state: &mut State,
) -> Moved
    requires { Ready state.old t (op (Load a x)) }
    ensures { Carried machine (flags volatile.now) (op (Load a x)) t
        state.old result state.new }
{
    let cell = u32::from(x);
    if !may_load(machine, volatile, state, t, cell) {
        return Moved::Waited;
    }
    let value = sees(machine, volatile, state, t, cell, memory_at(state, x));
    let next = next_position(state, t);
    write_register(t, a, value, next, state);
    Moved::Done
}

// STORE of register a to location x.
pub(crate) fn store(a: u8, x: u8, t: usize, state: &mut State) -> Moved
    requires { Ready state.old t (op (Store a x)) }
    ensures { (m : Machine) (f : ℕ → Bool)
        → Carried m f (op (Store a x)) t state.old result state.new }
{
    let value = register(state, t, a);
    let next = next_position(state, t);
    issue(t, u32::from(x), value, next, state);
    Moved::Done
}
