// A run over the bytes of a schedule, on the borrowed state.
ghost use Rattle.std.specs.Prelude.{List};
ghost use Rattle.sheet_format.specs.Layout.{Instr};
ghost use Rattle.machine_lane.specs.Lanes.{flags};
ghost use Rattle.machine_spec.specs.Moves.{moves_in};
ghost use Rattle.machine_run.specs.Runs.{RunnableBy, Runnable, Ends};
ghost use Rattle.machine_state.specs.States.{Sized};

use machine_spec::Machine;
use machine_state::held::position;
use machine_state::state::{Moved, State};
use machine_step::step::move_lane;

// The moves that were done and those that waited.
#[derive(Clone, Copy)]
pub struct Tally {
    pub done: usize,
    pub waited: usize,
}

// The lane and the position of an UNLOCK that was refused.
#[derive(Clone, Copy)]
pub struct Unheld {
    pub lane: usize,
    pub position: u32,
}

// A move is two bytes, a lane and a choice. The program of lane t is count[t] rows of the sheet from the byte first[t].
pub fn run_bytes(
    machine: Machine,
    volatile: &[bool],
    sheet: &[u8],
    first: &[usize; 4],
    count: &[usize; 4],
    moves: &[u8],
    state: &mut State,
) -> Result<Tally, Unheld>
    requires { Sized state.old
        × Runnable machine (flags volatile.now) sheet.now first.now count.now (moves_in moves.now)
        state.old }
    ensures { (prog : List (List Instr))
        → RunnableBy machine (flags volatile.now) sheet.now first.now
        count.now (moves_in moves.now) state.old prog
        → Ends machine (flags volatile.now) (moves_in moves.now) prog
        state.old result state.new }
{
    let n = moves.len() / 2;
    let mut done = 0;
    for k in 0..n {
        let t = moves[2 * k] as usize;
        let choice = moves[2 * k + 1];
        let here = position(state, t);
        let moved = move_lane(
            machine, volatile, sheet, first[t], count[t], t, choice, state,
        );
        match moved {
            Moved::Waited => (),
            Moved::Done => done += 1,
            Moved::ReleaseNotHeld => return Err(Unheld {
                lane: t,
                position: here,
            }),
        }
    }
    Ok(Tally {
        done,
        waited: n - done,
    })
}
