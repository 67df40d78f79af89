// A run from a kernel file and a slice of move structs.
ghost use Rattle.machine_course.specs.Stands.{answer_by};
ghost use Rattle.machine_course.specs.Returned.{Answers, moves_of};

use crate::moves::run_moves;
use machine_course::begin::begin;
use machine_course::course::{no_rows, no_state};
use machine_course::finish::{Ran, finish};
use machine_course::moves::Move;
use machine_spec::Machine;

// The answer is the definition's: refusal, state, finished, done, waited.
pub fn run(machine: Machine, file: &[u8], moves: &[Move]) -> Ran
    ensures { Answers result (answer_by machine file.now (moves_of moves.now)) }
{
    let mut rows = no_rows();
    let mut state = no_state();
    let x = begin(machine, file, &mut rows, &mut state);
    let y = run_moves(&rows, moves, x, &mut state);
    finish(y, &state)
}
