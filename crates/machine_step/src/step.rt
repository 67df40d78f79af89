// A move of a lane of the borrowed state. The lane's program is `count` rows of a sheet, 8 bytes each, from the byte
// `first` on.
ghost use Rattle.std.specs.Prelude.{◌+◌, ◌*◌, ◌≤◌, length, drop};
ghost use Rattle.sheet_format.specs.Read.{read_rows};
ghost use Rattle.machine_lane.specs.Lanes.{flags};
ghost use Rattle.machine_state.specs.Ready.{Movable};
ghost use Rattle.machine_step.specs.Turns.{turns, Took};

use crate::carry::carry;
use crate::commit::commit;
use machine_spec::Machine;
use machine_state::held::position;
use machine_state::state::{Moved, State};
use sheet_rows::number::wide;
use sheet_rows::read::whole_row;

// The instruction at the lane's position; past the last one is the end, where the lane waits.
fn carry_next(
    machine: Machine,
    volatile: &[bool],
    sheet: &[u8],
    first: usize,
    count: usize,
    t: usize,
    state: &mut State,
) -> Moved
    requires { Movable state.old t (read_rows count (drop first sheet.now))
        × (first + 8 * count ≤ length sheet.now) }
    ensures { Took state.old t (turns machine (flags volatile.now)
        (read_rows count (drop first sheet.now)) state.old t 0) result state.new }
{
    let p = wide(position(state, t));
    if p >= count {
        return Moved::Waited;
    }
    let row = whole_row(sheet, first + 8 * p);
    carry(
        machine, volatile, row.code, row.a, row.b, row.word, t, state,
    )
}

// Choice 0 carries out the next instruction, choice k commits the k-th oldest entry.
pub fn move_lane(
    machine: Machine,
    volatile: &[bool],
    sheet: &[u8],
    first: usize,
    count: usize,
    t: usize,
    choice: u8,
    state: &mut State,
) -> Moved
    requires { Movable state.old t (read_rows count (drop first sheet.now))
        × (first + 8 * count ≤ length sheet.now) }
    ensures { Took state.old t (turns machine (flags volatile.now)
        (read_rows count (drop first sheet.now)) state.old t choice) result state.new }
{
    if choice == 0 {
        return carry_next(machine, volatile, sheet, first, count, t, state);
    }
    let index = usize::from(choice) - 1;
    commit(machine, volatile, index, t, state)
}
