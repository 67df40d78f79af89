// The start of a run from a kernel file of whatever bytes.
ghost use Rattle.std.specs.Prelude.{[], ◌≤◌, length, get_or};
ghost use Rattle.machine_state.specs.States.{Sized};
ghost use Rattle.machine_course.specs.Stands.{Started, RefusedStart, Stands};

use crate::course::{Course, Rows, blocked, underway};
use crate::start::start;
use file_format::fields::word_at;
use file_verdict::number::number_of;
use file_verdict::refusal::Refusal;
use machine_spec::Machine;
use machine_start::extent::{NO_EXTENT, extent_of};
use machine_start::program::program_of;
use machine_state::state::State;

// A refused file's start is that of its header where this is valid.
fn start_refused(file: &[u8], refusal: Refusal, state: &mut State)
    requires { Sized state.old }
    ensures { RefusedStart file.now refusal state.new }
{
    if number_of(refusal) < 3 {
        start(NO_EXTENT, state);
    } else {
        start(extent_of(file), state);
    }
}

// The start of an accepted file's run, by the header of its rows.
fn start_rows(rows: &[u8], state: &mut State)
    requires { Sized state.old }
    ensures { Started (get_or rows.now 0 0) (get_or rows.now 1 0)
        (get_or rows.now 2 0)
        state.new }
{
    start(extent_of(rows), state);
}

// The program goes to `rows`, the start to `state`.
pub fn begin(machine: Machine, file: &[u8], rows: &mut Rows, state: &mut State) -> Course
    requires { (4112 ≤ length rows.old) × Sized state.old }
    ensures { Stands file.now machine [] rows.new result state.new }
{
    match program_of(machine, file, rows) {
        Err(refusal) => {
            start_refused(file, refusal, state);
            blocked(machine, refusal)
        }
        Ok(_) => {
            start_rows(rows, state);
            underway(machine, u32::from(word_at(file, 4)), rows)
        }
    }
}
