// A run so far, but for the state; and the arrays that it works in, before it starts.
ghost use Rattle.std.specs.Prelude.{◌≡◌, ◌≤◌, ◌<◌, length};
ghost use Rattle.machine_state.specs.States.{Sized};
ghost use Rattle.machine_course.specs.Stands.{blocked, Sets};

use file_verdict::refusal::Refusal;
use machine_lane::flags::flags_of;
use machine_spec::Machine;
use machine_start::extent::{Extent, NO_EXTENT, extent_of};
use machine_state::state::State;
use sheet_rows::parts::parts_of;

// The machine and its program: the volatile locations, where the rows of each lane begin and how many they are, and
// its numbers of lanes, locations and locks; the refusal of a run that is not under way; then the moves done and
// waited.
#[derive(Clone, Copy)]
pub struct Course {
    pub machine: Machine,
    pub volatile: [bool; 16],
    pub first: [usize; 4],
    pub count: [usize; 4],
    pub extent: Extent,
    pub refusal: Option<Refusal>,
    pub done: usize,
    pub waited: usize,
}

// The rows of a machine's program.
pub type Rows = [u8; 4112];

pub fn no_rows() -> Rows
    ensures { 4112 ≤ length result }
{
    [0; 4112]
}

pub fn no_state() -> State
    ensures { Sized result }
{
    [[[0; 64]; 3]; 5]
}

// A run that is refused.
pub(crate) fn blocked(machine: Machine, refusal: Refusal) -> Course
    ensures { result ≡ blocked machine refusal }
{
    Course {
        machine,
        volatile: [false; 16],
        first: [0; 4],
        count: [0; 4],
        extent: NO_EXTENT,
        refusal: Some(refusal),
        done: 0,
        waited: 0,
    }
}

// A run that is under way, before its first move.
pub(crate) fn underway(machine: Machine, mask: u32, rows: &[u8]) -> Course
    requires { mask < 65536 }
    ensures { Sets machine mask rows.now result }
{
    // The borrow checker does not cover an array that a field gets from a call or a field straight.
    let parts = parts_of(rows);
    let first = parts.from;
    let count = parts.count;
    let volatile = flags_of(mask);
    Course {
        machine,
        volatile,
        first,
        count,
        extent: extent_of(rows),
        refusal: None,
        done: 0,
        waited: 0,
    }
}
