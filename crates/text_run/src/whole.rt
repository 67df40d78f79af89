// The text of a run of a schedule on a kernel file: the line of each move, and its end.
ghost use Rattle.std.specs.Prelude.{◌≡◌, ◌≤◌, ◌<◌, ◌^◌, length};
ghost use Rattle.file_verdict.specs.Verdict.{verdict};
ghost use Rattle.sheet_format.specs.Put.{Puts};
ghost use Rattle.machine_spec.specs.Moves.{moves_in};
ghost use Rattle.text_run.specs.Runs.{run_line, Between, tell_end_by};

use crate::moves::tell_move;
use crate::states::tell_state;
use lanes::call::run_file;
use machine_spec::Machine;
use sheet_format::WriteResult;

// Line n of the run, counted from 0, from the rows of the machine's program and the state records before and after move
// n. The file is that of the run: only the contract reads it.
pub fn run_line(
    line: &mut [u8],
    machine: Machine,
    file: &[u8],
    moves: &[u8],
    n: usize,
    rows: &[u8],
    before: &[u8],
    after: &[u8],
) -> usize
    requires { Between machine file.now (moves_in moves.now) n rows.now before.now after.now }
    ensures { (result ≤ 128)
        × Puts line.old 0
        (run_line machine (verdict file.now) (moves_in moves.now) n) line.new result }
{
    let lane = moves[2 * n];
    let choice = moves[2 * n + 1];
    let number = (n + 1) as u32;
    tell_move(line, machine, rows, before, after, number, lane, choice)
}

// The state at the end of the run, as far as the buffer reaches; a refusal leaves the buffer as it was. The header of a
// kernel file has the counts that the text goes by, as that of a sheet does.
pub fn tell_end(machine: Machine, file: &[u8], moves: &[u8], out: &mut [u8]) -> WriteResult
    requires { length moves.now < 2 ^ 32 }
    ensures { (result, out.new) ≡ tell_end_by machine (verdict file.now)
        moves.now out.old }
{
    let mut end = [0u8; 2280];
    run_file(machine, file, moves, &mut end)?;
    Ok(tell_state(out, &end, file))
}
