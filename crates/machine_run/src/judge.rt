// Tests of a run: whether refusal 10 lets its schedule through, and whether it is finished.
ghost use Rattle.std.specs.Prelude.{◌≡◌, ◌&&◌, List, ◌≤◌, leb, ltb};
ghost use Rattle.sheet_format.specs.Layout.{Instr};
ghost use Rattle.machine_spec.specs.Schedule.{legal, limit};
ghost use Rattle.machine_spec.specs.View.{ended, drained, finished};
ghost use Rattle.machine_spec.specs.Moves.{moves_in};
ghost use Rattle.machine_state.specs.States.{count_of, state_in, Sized};
ghost use Rattle.machine_run.specs.Counts.{Counts};

use machine_spec::{Machine, Model};
use machine_state::held::{count as pending_count, position};
use machine_state::state::{COUNTS, LANES, SHARED, State};
use sheet_rows::number::wide;

// Whether a move names a lane below n and a choice up to the limit. `&`, which has no branch, is for the loop below.
pub fn legal_move(lane: u8, choice: u8, n: usize, limit: u8) -> bool
    ensures { result ≡ (ltb lane n && leb choice limit) }
{
    ((lane as usize) < n) & (choice <= limit)
}

// The highest choice of a move on a machine.
pub fn limit_of(machine: Machine) -> u8
    ensures { result ≡ limit machine }
{
    match machine {
        Machine::Source => 64,
        Machine::Target(Model::Tso) => 1,
        Machine::Target(Model::Pso) => 64,
    }
}

// Whether each move names a lane below n and a choice up to the limit. A move is two bytes, lane first. The loop has no
// early return, as `chunks_exact(2)` with `all` would, so that it is compiled to work on many moves at once.
pub fn legal_moves(moves: &[u8], n: usize, limit: u8) -> bool
    ensures { result ≡ legal n limit (moves_in moves.now) }
{
    let pairs = moves.len() / 2;
    let mut legal = true;
    for k in 0..pairs {
        legal &= legal_move(moves[2 * k], moves[2 * k + 1], n, limit);
    }
    legal
}

// Whether each lane stands at its end; the program of lane t has count[t] instructions.
pub fn ended(state: &State, count: &[usize; 4]) -> bool
    requires { Sized state.now × (count_of state.now 0 ≤ 4) }
    ensures { (prog : List (List Instr)) → Counts (count_of state.now 0) count.now prog
        → result ≡ ended prog (state_in state.now) }
{
    let n = wide(state[SHARED][COUNTS][LANES]);
    (0..n).all(|t| wide(position(state, t)) >= count[t])
}

// Whether nothing is pending in any lane.
pub fn drained(state: &State) -> bool
    requires { Sized state.now × (count_of state.now 0 ≤ 4) }
    ensures { result ≡ drained (state_in state.now) }
{
    let n = wide(state[SHARED][COUNTS][LANES]);
    (0..n).all(|t| pending_count(state, t) == 0)
}

// Whether a run is finished: each lane stands at its end, and nothing is pending.
pub fn finished(state: &State, count: &[usize; 4]) -> bool
    requires { Sized state.now × (count_of state.now 0 ≤ 4) }
    ensures { (prog : List (List Instr)) → Counts (count_of state.now 0) count.now prog
        → result ≡ finished prog (state_in state.now) }
{
    ended(state, count) && drained(state)
}
