// A legal schedule from the rows of a program to the state record.
ghost use Rattle.std.specs.Prelude.{◌≡◌, List, ℕ, ◌≤◌, length};
ghost use Rattle.file_format.specs.Accepted.{Program};
ghost use Rattle.machine_spec.specs.Moves.{moves_in};
ghost use Rattle.machine_lane.specs.Lanes.{flags};
ghost use Rattle.machine_start.specs.Setup.{ProgramIn, Startable, AtStart, Begun, ran_into};

use crate::extent::extent_of;
use file_verdict::refusal::Refusal;
use machine_lane::flags::flags_of;
use machine_record::state::write_state;
use machine_run::judge::finished;
use machine_run::run::{Tally, run_bytes};
use machine_spec::Machine;
use machine_state::state::{COUNTS, LANES, LOCATIONS, LOCKS, SHARED, State};
use sheet_format::WriteResult;
use sheet_rows::parts::parts_of;

// The moves, from the lanes at their start; then the record.
fn run_lanes(
    machine: Machine,
    volatile: &[bool],
    rows: &[u8],
    first: &[usize; 4],
    count: &[usize; 4],
    moves: &[u8],
    state: &mut State,
    out: &mut [u8],
) -> WriteResult
    requires room { 2280 ≤ length out.old }
    requires start { Begun machine (flags volatile.now) rows.now first.now count.now (moves_in moves.now)
        state.old }
    ensures { (s : List ℕ) (k : Program)
        → AtStart machine (flags volatile.now) rows.now first.now
        count.now (moves_in moves.now) state.old s k
        → (result, out.new) ≡ ran_into machine k moves.now out.old }
{
    let answer = run_bytes(machine, volatile, rows, first, count, moves, state);
    match answer {
        Ok(Tally { done, waited }) => {
            let finished = finished(state, count);
            write_state(out, finished, done, waited, state);
            Ok(2280)
        }
        // Never reached: no run of an accepted kernel is refused.
        Err(_) => Err(Refusal::ReleaseNotHeld(0)),
    }
}

// Every lane at its start, nothing pending, memory and locks zero; then the run.
pub fn run_rows(
    machine: Machine,
    mask: u32,
    rows: &[u8],
    moves: &[u8],
    out: &mut [u8],
) -> WriteResult
    requires room { 2280 ≤ length out.old }
    requires start { Startable machine mask rows.now moves.now }
    ensures { (s : List ℕ) (k : Program)
        → ProgramIn machine mask rows.now moves.now s k
        → (result, out.new) ≡ ran_into machine k moves.now out.old }
{
    let parts = parts_of(rows);
    let first = parts.from;
    let count = parts.count;
    let flags = flags_of(mask);
    let extent = extent_of(rows);
    let mut state = [[[0u32; 64]; 3]; 5];
    state[SHARED][COUNTS][LANES] = extent.lanes;
    state[SHARED][COUNTS][LOCATIONS] = extent.locations;
    state[SHARED][COUNTS][LOCKS] = extent.locks;
    run_lanes(
        machine, &flags, rows, &first, &count, moves, &mut state, out,
    )
}
