// The moves of a schedule in turn.
ghost use Rattle.std.specs.Prelude.{List, [], ℕ};
ghost use Rattle.machine_spec.specs.declared.Machine.{Machine};
ghost use Rattle.machine_course.specs.Stands.{Stands};
ghost use Rattle.machine_course.specs.Returned.{moves_of};
ghost use Rattle.machine_moves.specs.Turns.{Fresh};

use machine_course::course::{Course, Rows};
use machine_course::fold::fold_move;
use machine_course::moves::Move;
use machine_state::state::State;

// Each move on what the one before it left.
pub fn run_moves(rows: &Rows, ms: &[Move], mut x: Course, state: &mut State) -> Course
    requires { Fresh rows.now x state.old }
    ensures { (s : List ℕ) (m : Machine) → Stands s m [] rows.now x state.old
        → Stands s m (moves_of ms.now) rows.now result state.new }
{
    for m in ms {
        x = fold_move(rows, m.lane, m.choice, x, state);
    }
    x
}
