// An instruction by the name that a machine has for it.
ghost use Rattle.std.specs.Prelude.{◌≡◌, ℕ, ◌+◌, ◌≤◌, ◌^◌};
ghost use Rattle.sheet_format.specs.Put.{Puts};
ghost use Rattle.sheet_format.specs.Read.{instr_by};
ghost use Rattle.text_run.specs.Names.{is_store_load, own_name, instr_on};

use machine_spec::{Machine, Model};
use sheet_format::code::Code;
use sheet_rows::read::Row;
use text_listing::line::put_instr;
use text_put::put::put_text;

// Is the code the store-load barrier's?
fn is_store_load(code: u8) -> bool
    ensures { (a b c : ℕ) → result ≡ is_store_load (instr_by code a b c) }
{
    Code::from(u32::from(code)) == Code::SL
}

// Has the machine a name of its own for the instruction of this code?
fn own_name(machine: Machine, code: u8) -> bool
    ensures { (a b c : ℕ) → result ≡ own_name machine (instr_by code a b c) }
{
    match machine {
        Machine::Source | Machine::Target(Model::Tso) => false,
        Machine::Target(Model::Pso) => is_store_load(code),
    }
}

// The instruction of a row.
pub(crate) fn put_named(out: &mut [u8], at: usize, machine: Machine, row: Row) -> usize
    requires { at + 28 ≤ 2 ^ 62 }
    ensures { (result ≤ at + 28)
        × Puts out.old at (instr_on machine (instr_by row.code row.a row.b row.word))
        out.new result }
{
    if own_name(machine, row.code) {
        return put_text(out, at, b"SL");
    }
    put_instr(
        out,
        at,
        row.code as u32,
        row.a as u32,
        row.b as u32,
        row.word,
    )
}
