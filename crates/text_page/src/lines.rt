// The lines of the pages, from the rows of a level 2 sheet and the records in the order of its lanes.
ghost use Rattle.std.specs.Prelude.{◌≡◌, List, ℕ, ◌+◌, ◌*◌, ◌≤◌, ◌<◌, get_or};
ghost use Rattle.file_format.specs.Accepted.{Program};
ghost use Rattle.sheet_format.specs.Put.{Puts};
ghost use Rattle.sheet_format.specs.Read.{instr_by};
ghost use Rattle.sheet_rows.specs.Rows.{parts_in};
ghost use Rattle.text_page.specs.Lines.{takes as takesOf, page_lines};
ghost use Rattle.text_page.specs.Given.{RowAt, paged, Given};

use crate::line::put_row;
use sheet_format::code::Code;
use sheet_rows::parts::{Parts, parts_of};
use sheet_rows::read::row_at;

// A lane, and a position in it.
#[derive(Clone, Copy)]
pub(crate) struct Place {
    pub lane: usize,
    pub position: usize,
}

// Where row i stands, in a sheet whose lanes have these parts.
fn place_of(parts: Parts, i: usize) -> Place
    ensures few { (result.lane < 4) × (result.position ≤ i) }
    ensures row { (sheet : List ℕ) → parts ≡ parts_in sheet
        → 16 + 8 * i < get_or (parts_in sheet).from 3 0 + 8 * get_or (parts_in sheet).count 3 0
        → RowAt sheet i result.lane result.position }
{
    let mut position = i;
    for lane in 0..3 {
        let count = parts.count[lane];
        if position < count {
            return Place { lane, position };
        }
        position -= count;
    }
    Place { lane: 3, position }
}

// How many records the instruction with this code comes from: an operation from one, a barrier from none.
fn takes(code: u8) -> usize
    ensures { (result ≤ 1) × ((a b c : ℕ) → result ≡ takesOf (instr_by code a b c)) }
{
    match Code::from(u32::from(code)) {
        Code::LL | Code::LS | Code::SS | Code::SL => 0,
        _ => 1,
    }
}

// The record at j in the order; 0 past it.
fn record_at(order: &[u16], j: usize) -> u32
    ensures { result ≡ get_or order.now j 0 }
{
    u32::from(order.get(j).copied().unwrap_or(0))
}

// The n lines with their headings, from the front of `out`; the position behind them.
pub(crate) fn put_lines(out: &mut [u8], sheet: &[u8], order: &[u16], n: usize) -> usize
    requires { (k : Program) × Given k sheet.now order.now n }
    ensures { (k : Program) → Given k sheet.now order.now n
        → Puts out.old 0 (paged 0 (page_lines k)) out.new result }
{
    let parts = parts_of(sheet);
    let mut at = 0;
    let mut next = 0;
    for i in 0..n {
        let row = row_at(sheet, 16 + 8 * i);
        let place = place_of(parts, i);
        let lane = place.lane as u32;
        let position = place.position as u32;
        at = put_row(out, at, i, lane, position, row, record_at(order, next));
        next += takes(row.code);
    }
    at
}
