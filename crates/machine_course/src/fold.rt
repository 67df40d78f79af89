// One move of a schedule on a run so far.
ghost use Rattle.std.specs.Prelude.{◌≡◌, List, [], ◌∷◌, ◌++◌, ℕ, ◌+◌, ◌<◌};
ghost use Rattle.machine_spec.specs.Schedule.{Move, move};
ghost use Rattle.machine_spec.specs.declared.Machine.{Machine};
ghost use Rattle.machine_course.specs.Stands.{Stands, Standing, counted, stopped};

use crate::course::{Course, Rows};
use crate::start::start;
use file_verdict::refusal::Refusal;
use machine_run::judge::{legal_move, limit_of};
use machine_state::state::{Moved, State};
use machine_step::step::move_lane;
use sheet_rows::number::wide;

// With other numbers of moves done and waited.
fn count(mut x: Course, moved: Moved) -> Course
    requires { x.done + x.waited < 4611686018427387904 }
    ensures { result ≡ counted x moved }
{
    match moved {
        Moved::Waited => x.waited += 1,
        Moved::Done => x.done += 1,
        Moved::ReleaseNotHeld => (),
    }
    x
}

// Refused with 10: nothing is counted.
fn stop(mut x: Course) -> Course
    ensures { result ≡ stopped x }
{
    x.refusal = Some(Refusal::IllegalMove);
    x.done = 0;
    x.waited = 0;
    x
}

// A run that is refused stays so. At the first move that is not legal a run is refused and goes back to its start:
// that is what comes of looking at the whole schedule first.
pub fn fold_move(rows: &Rows, lane: u8, choice: u8, x: Course, state: &mut State) -> Course
    requires { Standing rows.now x state.old }
    ensures { (s : List ℕ) (m : Machine) (mvs : List Move) → Stands s m mvs rows.now x
        state.old
        → Stands s m (mvs ++ (move lane choice ∷ [])) rows.now result state.new }
{
    if x.refusal.is_some() {
        return x;
    }
    if !legal_move(lane, choice, wide(x.extent.lanes), limit_of(x.machine)) {
        start(x.extent, state);
        return stop(x);
    }
    let t = lane as usize;
    let moved = move_lane(
        x.machine,
        &x.volatile,
        rows,
        x.first[t],
        x.count[t],
        t,
        choice,
        state,
    );
    count(x, moved)
}
