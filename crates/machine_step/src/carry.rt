// The instruction of a sheet row, carried out by a lane of the borrowed state.
ghost use Rattle.std.specs.Prelude.{◌≡◌};
ghost use Rattle.barrier_placement.specs.declared.cookbook.Barrier.{Barrier};
ghost use Rattle.sheet_format.specs.Code.{barrier_kind};
ghost use Rattle.sheet_format.specs.Read.{instr_by};
ghost use Rattle.machine_lane.specs.Lanes.{flags};
ghost use Rattle.machine_state.specs.Ready.{Ready};
ghost use Rattle.machine_step.specs.Turns.{Carried};

use crate::access::{load, store};
use crate::guard::{lock, unlock};
use crate::local::{add, pass, set, skip};
use barrier_placement::cookbook::Barrier;
use machine_spec::Machine;
use machine_state::state::{Moved, State};
use sheet_format::code::Code;

// The barrier of a kind that is one.
fn barrier_of(kind: Code) -> Barrier
    ensures { (b : Barrier) → kind ≡ barrier_kind b → result ≡ b }
{
    match kind {
        Code::LL => Barrier::LL,
        Code::LS => Barrier::LS,
        Code::SS => Barrier::SS,
        _ => Barrier::SL,
    }
}

// The instruction of operation code o, with its fields.
pub fn carry(
    machine: Machine,
    volatile: &[bool],
    o: u8,
    a: u8,
    b: u8,
    c: u32,
    t: usize,
    state: &mut State,
) -> Moved
    requires { Ready state.old t (instr_by o a b c) }
    ensures { Carried machine (flags volatile.now) (instr_by o a b c) t
        state.old result state.new }
{
    match Code::from(u32::from(o)) {
        Code::Set => set(a, c, t, state),
        Code::Add => add(a, b, t, state),
        Code::Load => load(machine, volatile, a, b, t, state),
        Code::Store => store(a, b, t, state),
        Code::Lock => lock(machine, volatile, b, t, state),
        Code::Unlock => unlock(b, t, state),
        Code::Skip => skip(a, c, t, state),
        kind @ (Code::LL | Code::LS | Code::SS | Code::SL) => {
            pass(machine, barrier_of(kind), t, state)
        }
    }
}
