// A run, told move by move: one state, carried on from each move to the next.
ghost use Rattle.std.specs.Prelude.{None, ◌≡◌, List, ℕ, ◌≤◌, length};
ghost use Rattle.machine_spec.specs.Schedule.{Move};
ghost use Rattle.machine_spec.specs.Moves.{moves_in};
ghost use Rattle.machine_spec.specs.declared.Machine.{Machine};
ghost use Rattle.machine_record.specs.Record.{state_bytes};
ghost use Rattle.machine_course.specs.Stands.{Stands, Judged, answer_by};
ghost use Rattle.text_run.specs.Runs.{Between};

use console::print::{say, say_part, say_refusal};
use file_verdict::number;
use machine_course::begin::begin;
use machine_course::course::{Course, Rows, no_rows, no_state};
use machine_course::fold::fold_move;
use machine_course::record::write_record;
use machine_spec::Machine;
use machine_state::state::State;
use std::io;
use text_run::whole::{run_line, tell_end};

// The whole schedule first: a refusal carries out nothing. Then each move, and the state at the end.
pub(crate) fn run_and_tell(
    rt: &impl Print,
    machine: Machine,
    file: &[u8],
    moves: &[u8],
) -> io::Result<()>
    requires { length moves.now ≤ 65536 }
{
    let mut end = [0u8; 65536];
    match tell_end(machine, file, moves, &mut end) {
        Ok(size) => {
            tell_moves(rt, machine, file, moves)?;
            say_part(rt, &end, size)?;
            say(rt, b"ran\n")
        }
        Err(refusal) => say_refusal(rt, number::number_of(refusal), number::record_of(refusal)),
    }
}

// A line for each move of a schedule that is not refused. The state record after a move is the one before the next.
fn tell_moves(rt: &impl Print, machine: Machine, file: &[u8], moves: &[u8]) -> io::Result<()>
    requires few { length moves.now ≤ 65536 }
    requires runs { (answer_by machine file.now (moves_in moves.now)).refusal ≡ None }
{
    let mut rows = no_rows();
    let mut state = no_state();
    let mut x = begin(machine, file, &mut rows, &mut state);
    let mut before = record_of(x, &state);
    for n in 0..moves.len() / 2 {
        x = fold_move(&rows, moves[2 * n], moves[2 * n + 1], x, &mut state);
        let after = record_of(x, &state);
        say_line(rt, machine, file, moves, n, &rows, &before, &after)?;
        before = after;
    }
    Ok(())
}

// The state record of the moves so far.
fn record_of(x: Course, state: &State) -> [u8; 2280]
    requires { Judged x state.now }
    ensures { (s : List ℕ) (m : Machine) (mvs : List Move) (rows : List ℕ) → Stands s m mvs rows x
        state.now
        → result ≡ state_bytes (answer_by m s mvs) }
{
    let mut out = [0u8; 2280];
    write_record(x, state, &mut out);
    out
}

// Line n of the run.
fn say_line(
    rt: &impl Print,
    machine: Machine,
    file: &[u8],
    moves: &[u8],
    n: usize,
    rows: &Rows,
    before: &[u8; 2280],
    after: &[u8; 2280],
) -> io::Result<()>
    requires { Between machine file.now (moves_in moves.now) n rows.now before.now after.now }
{
    let mut line = [0u8; 128];
    let size = run_line(&mut line, machine, file, moves, n, rows, before, after);
    say_part(rt, &line, size)
}
