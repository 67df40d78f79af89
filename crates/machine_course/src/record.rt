// The state record of a run so far.
ghost use Rattle.std.specs.Prelude.{◌≡◌, List, ℕ, ◌≤◌, length};
ghost use Rattle.sheet_format.specs.Bytes.{over};
ghost use Rattle.machine_spec.specs.Schedule.{Move};
ghost use Rattle.machine_spec.specs.declared.Machine.{Machine};
ghost use Rattle.machine_record.specs.Record.{state_bytes};
ghost use Rattle.machine_course.specs.Stands.{Stands, Judged, answer_by};

use crate::course::Course;
use crate::finish::answer_finished;
use machine_record::state::write_state;
use machine_state::state::State;

// That of the moves so far, also where they are refused, at the front of `out`; what lies behind it stays.
pub fn write_record(x: Course, state: &State, out: &mut [u8])
    requires room { 2280 ≤ length out.old }
    requires moved { Judged x state.now }
    ensures { (s : List ℕ) (m : Machine) (mvs : List Move) (rows : List ℕ) → Stands s m mvs rows x
        state.now
        → out.new ≡ over (state_bytes (answer_by m s mvs)) out.old }
{
    let finished = answer_finished(x, state);
    write_state(out, finished, x.done, x.waited, state);
}
