// What a machine runs: its program as rows.
ghost use Rattle.std.specs.Prelude.{◌≡◌};
ghost use Rattle.file_verdict.specs.Verdict.{verdict};
ghost use Rattle.sheet_format.specs.Bytes.{lower_by};
ghost use Rattle.machine_spec.specs.Run.{level_of};

use file_accept::output::chain_file;
use machine_spec::{Machine, Model};
use sheet_format::WriteResult;
use sheet_lower::lower::{lower2, lower3};

// The rows at the front of `rows`: the chains for the source machine, the sheet of its level for a target.
pub fn program_of(machine: Machine, file: &[u8], rows: &mut [u8]) -> WriteResult
    ensures { (result, rows.new) ≡ lower_by (level_of machine) (verdict file.now)
        rows.old }
{
    match machine {
        Machine::Source => chain_file(file, rows),
        Machine::Target(Model::Tso) => lower2(file, rows),
        Machine::Target(Model::Pso) => lower3(file, rows),
    }
}
