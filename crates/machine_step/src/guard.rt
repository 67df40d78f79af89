// LOCK and UNLOCK. Whether the move waits is decided before anything is written.
ghost use Rattle.std.specs.Prelude.{ℕ, Bool};
ghost use Rattle.file_format.specs.declared.accepted.Op.TheVariants.{Lock, Unlock};
ghost use Rattle.sheet_format.specs.Layout.{op};
ghost use Rattle.machine_lane.specs.Lanes.{flags};
ghost use Rattle.machine_state.specs.Ready.{Ready};
ghost use Rattle.machine_step.specs.Turns.{Carried};

use machine_spec::Machine;
use machine_state::held::{go, issue, next_position};
use machine_state::rules::may_lock;
use machine_state::shared::{lock_at, set_lock};
use machine_state::state::{Moved, State};

// LOCK of lock l.
pub(crate) fn lock(machine: Machine, volatile: &[bool], l: u8, t: usize, state: &mut State) -> Moved
    requires { Ready state.old t (op (Lock l)) }
    ensures { Carried machine (flags volatile.now) (op (Lock l)) t
        state.old result state.new }
{
    if lock_at(state, l) != 0 || !may_lock(machine, volatile, state, t) {
        return Moved::Waited;
    }
    let next = next_position(state, t);
    set_lock(u32::from(l), t as u32 + 1, state);
    go(t, next, state);
    Moved::Done
}

// UNLOCK of lock l.
pub(crate) fn unlock(l: u8, t: usize, state: &mut State) -> Moved
    requires { Ready state.old t (op (Unlock l)) }
    ensures { (m : Machine) (f : ℕ → Bool)
        → Carried m f (op (Unlock l)) t state.old result state.new }
{
    if lock_at(state, l) != t as u32 + 1 {
        return Moved::ReleaseNotHeld;
    }
    let next = next_position(state, t);
    issue(t, 16 + u32::from(l), 0, next, state);
    Moved::Done
}
