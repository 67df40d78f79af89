// The start of a run, written over the borrowed state.
ghost use Rattle.machine_state.specs.States.{Sized};
ghost use Rattle.machine_course.specs.Stands.{Started};

use machine_start::extent::Extent;
use machine_state::state::{COUNTS, LANES, LOCATIONS, LOCKS, SHARED, State};

// So many lanes at their starts, locations and free locks.
pub(crate) fn start(extent: Extent, state: &mut State)
    requires { Sized state.old }
    ensures { Started extent.lanes extent.locations extent.locks state.new }
{
    *state = [[[0; 64]; 3]; 5];
    state[SHARED][COUNTS][LANES] = extent.lanes;
    state[SHARED][COUNTS][LOCATIONS] = extent.locations;
    state[SHARED][COUNTS][LOCKS] = extent.locks;
}
