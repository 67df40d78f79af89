// The line of an instruction and the heading of a page, laid into a buffer.
ghost use Rattle.std.specs.Prelude.{◌≡◌, ◌∷◌, [], ◌++◌, ℕ, ◌+◌, ◌≤◌, ◌<◌, ◌^◌, length, drop};
ghost use Rattle.sheet_format.specs.Put.{Puts};
ghost use Rattle.sheet_format.specs.Read.{instr_by};
ghost use Rattle.text_put.specs.Decimal.{decimal};
ghost use Rattle.text_put.specs.Words.{newline};
ghost use Rattle.text_listing.specs.Line.{instr_name};
ghost use Rattle.text_page.specs.declared.column.Side.TheVariants.{Left, Right};
ghost use Rattle.text_page.specs.Columns.{column, in_column, in_columns, InLine};
ghost use Rattle.text_page.specs.Lines.{columns, field_texts, instruction_line};
ghost use Rattle.text_page.specs.Pages.{heading_line};
ghost use Rattle.text_page.specs.Given.{headed};

use crate::column::{Column, Side, put_in, put_number};
use sheet_format::code::Code;
use sheet_rows::read::Row;
use text_listing::line::put_name;
use text_put::put::{put, put_text};

// The columns of an instruction's line.
const LANE: Column = Column {
    first: 1,
    width: 1,
    side: Side::Right,
};

const POSITION: Column = Column {
    first: 3,
    width: 3,
    side: Side::Right,
};

const NAME: Column = Column {
    first: 7,
    width: 6,
    side: Side::Left,
};

const REGISTER: Column = Column {
    first: 14,
    width: 1,
    side: Side::Right,
};

const OPERAND: Column = Column {
    first: 16,
    width: 2,
    side: Side::Right,
};

const CONSTANT: Column = Column {
    first: 19,
    width: 10,
    side: Side::Right,
};

const RECORD: Column = Column {
    first: 30,
    width: 3,
    side: Side::Right,
};

// The columns of a heading.
const WORD: Column = Column {
    first: 1,
    width: 4,
    side: Side::Left,
};

const NUMBER: Column = Column {
    first: 30,
    width: 3,
    side: Side::Right,
};

// How many lines a page has behind its heading.
const LINES: usize = 55;

// A line and its newline.
fn put_line(out: &mut [u8], at: usize, line: &[u8]) -> usize
    requires { (length line.now ≤ 32) × (at + 33 ≤ 2 ^ 62) }
    ensures { Puts out.old at (line.now ++ newline ∷ []) out.new result }
{
    let end = put_text(out, at, line);
    put(out, end, b'\n')
}

// The name of the instruction with this code, in its column.
fn name_in(line: &mut [u8], code: u32)
    ensures { (a b c : ℕ)
        → line.new ≡ in_column line.old (column 7 6 Left) (instr_name (instr_by code a b c)) }
{
    let mut name = [0u8; 6];
    let size = put_name(&mut name, 0, code);
    put_in(line, NAME, &name[..size]);
}

// A number in its column, and the record.
fn number_in(line: &mut [u8], place: Column, n: u32, rec: u32)
    requires { InLine place }
    ensures { line.new ≡ in_columns line.old
        (place ∷ column 30 3 Right ∷ []) (decimal n ∷ decimal rec ∷ []) }
{
    put_number(line, place, n);
    put_number(line, RECORD, rec);
}

// Register a, another number in its own column, and the record.
fn pair_in(line: &mut [u8], a: u32, second: Column, n: u32, rec: u32)
    requires { InLine second }
    ensures { line.new ≡ in_columns line.old
        (column 14 1 Right ∷ second ∷ column 30 3 Right ∷ []) (decimal a ∷ decimal n ∷ decimal rec ∷ []) }
{
    put_number(line, REGISTER, a);
    number_in(line, second, n, rec);
}

// The fields of an instruction behind its name, and the record that it comes from; a barrier has none.
fn fields_in(line: &mut [u8], code: u32, a: u32, b: u32, word: u32, rec: u32)
    ensures { line.new ≡ in_columns line.old (drop 3 columns)
        (field_texts (instr_by code a b word) rec) }
{
    match Code::from(code) {
        Code::Set | Code::Skip => pair_in(line, a, CONSTANT, word, rec),
        Code::Add | Code::Load | Code::Store => pair_in(line, a, OPERAND, b, rec),
        Code::Lock | Code::Unlock => number_in(line, OPERAND, b, rec),
        Code::LL | Code::LS | Code::SS | Code::SL => {}
    }
}

// The line of an instruction of a lane at a position, which comes from a record if it is an operation.
fn put_instruction(out: &mut [u8], at: usize, lane: u32, position: u32, row: Row, rec: u32) -> usize
    requires { at + 33 ≤ 2 ^ 62 }
    ensures { Puts out.old at
        (instruction_line lane position (instr_by row.code row.a row.b row.word) rec) out.new result }
{
    let mut line = [b' '; 32];
    put_number(&mut line, LANE, lane);
    put_number(&mut line, POSITION, position);
    let code = u32::from(row.code);
    let a = u32::from(row.a);
    let b = u32::from(row.b);
    name_in(&mut line, code);
    fields_in(&mut line, code, a, b, row.word, rec);
    put_line(out, at, &line)
}

// The heading of page n.
pub(crate) fn put_heading(out: &mut [u8], at: usize, n: u32) -> usize
    requires { at + 33 ≤ 2 ^ 62 }
    ensures { Puts out.old at (heading_line n) out.new result }
{
    let mut line = [b' '; 32];
    put_in(&mut line, WORD, b"page");
    put_number(&mut line, NUMBER, n);
    put_line(out, at, &line)
}

// Line i, from 0, behind the heading of the page that it begins.
pub(crate) fn put_row(
    out: &mut [u8],
    at: usize,
    i: usize,
    lane: u32,
    position: u32,
    row: Row,
    rec: u32,
) -> usize
    requires { (at + 66 ≤ 2 ^ 62) × (i < 512) }
    ensures { Puts out.old at
        (headed i (instruction_line lane position (instr_by row.code row.a row.b row.word) rec))
        out.new result }
{
    if i % LINES == 0 {
        let from = put_heading(out, at, (i / LINES + 1) as u32);
        return put_instruction(out, from, lane, position, row, rec);
    }
    put_instruction(out, at, lane, position, row, rec)
}
