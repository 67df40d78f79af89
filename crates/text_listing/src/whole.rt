// The whole listing of a level 2 sheet, from the sheet's bytes and the kernel's mask.
ghost use Rattle.std.specs.Prelude.{◌≡◌, ◌+◌, ◌*◌, ◌≤◌, ◌^◌, length, drop};
ghost use Rattle.sheet_format.specs.Read.{read_rows, read_sheet, counts};
ghost use Rattle.sheet_format.specs.Put.{Puts};
ghost use Rattle.text_listing.specs.Listing.{lane_lines, sheet_lines, sheet_text};
ghost use Rattle.sheet_format.specs.Bytes.{write_into};

use crate::line::put_line;
use crate::measured::list;
use crate::title::put_first;
use file_format::fields::{byte_at, word_at};
use sheet_format::WriteResult;

// The lines of a lane of `count` instructions, whose bytes begin at `from`.
fn put_lane(out: &mut [u8], start: usize, lane: u32, count: u32, sheet: &[u8], from: usize) -> usize
    requires { (start + 51 * count ≤ 2 ^ 62) × (from + 8 * count ≤ 2 ^ 62) }
    ensures { (result ≤ start + 51 * count)
        × Puts out.old start (lane_lines lane 0 (read_rows count (drop from sheet.now)))
        out.new result }
{
    let mut at = start;
    let mut row = from;
    for p in 0..count {
        at = put_line(out, at, lane, p, sheet, row);
        row += 8;
    }
    at
}

// How many lanes the header counts: at most four.
fn lanes_of(sheet: &[u8]) -> u32
    ensures { (result ≡ length (counts sheet.now)) × (result ≤ 4) }
{
    u32::from(byte_at(sheet, 0)).min(4)
}

// The lines of every lane.
fn put_lanes(out: &mut [u8], start: usize, sheet: &[u8]) -> usize
    requires { start ≤ 2 ^ 32 }
    ensures puts { Puts out.old start (sheet_lines 0 (read_sheet sheet.now)) out.new result }
    ensures upper_bound { result ≤ start + 2 ^ 24 }
{
    let lanes = lanes_of(sheet);
    let mut at = start;
    let mut from: usize = 16;
    for t in 0..lanes {
        let count = u32::from(word_at(sheet, 8 + 2 * (t as usize)));
        at = put_lane(out, at, t, count, sheet, from);
        from += 8 * (count as usize);
    }
    at
}

// The whole text, as far as the buffer reaches.
fn put_sheet(out: &mut [u8], sheet: &[u8], mask: u16) -> usize
    ensures { Puts out.old 0 (sheet_text sheet.now mask) out.new result }
{
    let i = put_first(out, sheet, mask);
    put_lanes(out, i, sheet)
}

// The listing of a level 2 sheet at the front of `out`; 9, and `out` as it was, where it does not fit.
pub fn list_sheet(sheet: &[u8], mask: u16, out: &mut [u8]) -> WriteResult
    ensures { (result, out.new) ≡ write_into (sheet_text sheet.now mask) out.old }
{
    list(|buffer: &mut [u8]| put_sheet(buffer, sheet, mask), out)
}
