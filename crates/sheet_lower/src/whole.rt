// A sheet from the rows of an accepted file's chains.
ghost use Rattle.std.specs.Prelude.{◌≡◌, ◌+◌, ◌≤◌, length};
ghost use Rattle.file_format.specs.Fields.{record_count};
ghost use Rattle.file_format.specs.Accepted.{Program, program_of};
ghost use Rattle.file_verdict.specs.Verdict.{verdict, accepted};
ghost use Rattle.sheet_format.specs.Bytes.{level_number, mask_at, write_into};
ghost use Rattle.sheet_lower.specs.Sheet.{sheet_of};
ghost use Rattle.sheet_lower.specs.Chained.{ChainsOf};

use file_format::fields::{byte_at, word_at};
use sheet_format::Level;
use sheet_lanes::plan::plan_lanes;
use sheet_lanes::starts::begin_in;
use sheet_lanes::whole::write_lanes;
use sheet_rows::parts::parts_of;
use sheet_rows::put::{put_counts, put_first};

// The level in a sheet's header.
fn level_number(level: Level) -> u8
    ensures { result ≡ level_number level }
{
    match level {
        Level::Level0 => 0,
        Level::Level1 => 1,
        Level::Level2 => 2,
        Level::Level3 => 3,
    }
}

// The mask in a sheet's header, of a kernel with this mask.
fn mask_at(level: Level, mask: u16) -> u16
    ensures { (k : Program) → mask ≡ k.mask → result ≡ mask_at level k }
{
    match level {
        Level::Level0 => mask,
        Level::Level1 => mask,
        Level::Level2 => 0,
        Level::Level3 => 0,
    }
}

// Writes the sheet of an accepted file at a level if it fits, else nothing; the bytes that it takes. The plans of the
// lanes stand in `plan` for it.
pub fn write_sheet(level: Level, out: &mut [u8], s: &[u8], rows: &[u8], plan: &mut [u32]) -> usize
    requires s_value { verdict s.now ≡ accepted (program_of s.now) }
    requires chains_of { ChainsOf s.now rows.now × (record_count s.now + 4 ≤ length plan.old) }
    ensures size { result ≡ length (sheet_of level s.now) }
    ensures wrote { out.new ≡ (write_into (sheet_of level s.now) out.old).1 }
{
    let mask = word_at(s, 4);
    let parts = parts_of(rows);
    let ends = plan_lanes(rows, parts, mask, plan);
    let count = parts.count;
    let a = begin_in(level, ends[0], count[0]);
    let b = begin_in(level, ends[1], count[1]);
    let c = begin_in(level, ends[2], count[2]);
    let d = begin_in(level, ends[3], count[3]);
    let total = 16 + 8 * (a + (b + (c + d)));
    if out.len() < total {
        return total;
    }
    put_first(
        out,
        byte_at(s, 0),
        byte_at(s, 1),
        byte_at(s, 2),
        level_number(level),
        mask_at(level, mask),
    );
    put_counts(out, a, b, c, d);
    write_lanes(level, out, rows, parts, plan);
    total
}
