// One line of a listing, laid into a buffer.
ghost use Rattle.std.specs.Prelude.{ℕ, ◌+◌, ◌≤◌, ◌^◌, ◌++◌, length, drop};
ghost use Rattle.sheet_format.specs.Read.{instr_by, read_instr};
ghost use Rattle.sheet_format.specs.Put.{Puts};
ghost use Rattle.text_listing.specs.Line.{pair, instr_name, instr_text, line_of};

use sheet_format::code::Code;
use sheet_rows::read::row_at;
use text_put::put::{put, put_text};
use text_put::words::{put_decimal, put_one};

fn put_pair(out: &mut [u8], at: usize, a: u32, b: u32) -> usize
    requires { at + 21 ≤ 2 ^ 62 }
    ensures { Puts out.old at (pair a b) out.new result }
{
    let i = put_decimal(out, at, a);
    let j = put(out, i, b' ');
    put_decimal(out, j, b)
}

// A name and two operands.
fn put_two(out: &mut [u8], at: usize, name: &[u8], a: u32, b: u32) -> usize
    requires { at + length name.now + 21 ≤ 2 ^ 62 }
    ensures { Puts out.old at (name.now ++ pair a b) out.new result }
{
    let i = put_text(out, at, name);
    put_pair(out, i, a, b)
}

// The name of the instruction with this code.
pub fn put_name(out: &mut [u8], at: usize, o: u32) -> usize
    requires { at + 6 ≤ 2 ^ 62 }
    ensures { (a b c : ℕ) → Puts out.old at (instr_name (instr_by o a b c)) out.new result }
{
    let name: &[u8] = match Code::from(o) {
        Code::Set => b"SET",
        Code::Add => b"ADD",
        Code::Load => b"LOAD",
        Code::Store => b"STORE",
        Code::Lock => b"LOCK",
        Code::Unlock => b"UNLOCK",
        Code::Skip => b"SKIP",
        Code::LL => b"LL",
        Code::LS => b"LS",
        Code::SS => b"SS",
        Code::SL => b"MFENCE",
    };
    put_text(out, at, name)
}

// The instruction of a code, with its fields.
pub fn put_instr(out: &mut [u8], at: usize, o: u32, a: u32, b: u32, c: u32) -> usize
    requires { at + 28 ≤ 2 ^ 62 }
    ensures { Puts out.old at (instr_text (instr_by o a b c)) out.new result }
{
    let i = put_name(out, at, o);
    match Code::from(o) {
        Code::Set | Code::Skip => put_two(out, i, b" ", a, c),
        Code::Add | Code::Load | Code::Store => put_two(out, i, b" ", a, b),
        Code::Lock | Code::Unlock => put_one(out, i, b" ", b),
        Code::LL | Code::LS | Code::SS | Code::SL => i,
    }
}

// The line of the instruction whose bytes begin at `from`: at most 51 bytes.
pub fn put_line(
    out: &mut [u8],
    at: usize,
    lane: u32,
    position: u32,
    sheet: &[u8],
    from: usize,
) -> usize
    requires { at + 51 ≤ 2 ^ 62 }
    ensures { (result ≤ at + 51)
        × Puts out.old at (line_of lane position (read_instr (drop from sheet.now)))
        out.new result }
{
    let row = row_at(sheet, from);
    let i = put_pair(out, at, lane, position);
    let j = put(out, i, b' ');
    let k = put_instr(
        out,
        j,
        u32::from(row.code),
        u32::from(row.a),
        u32::from(row.b),
        row.word,
    );
    put(out, k, b'\n')
}
