// Where the fields of a lane lie: in a state record, and in the rows of a program.
ghost use Rattle.std.specs.Prelude.{◌≡◌, ◌<◌, ◌^◌, get_or};
ghost use Rattle.sheet_rows.specs.Rows.{parts_in};
ghost use Rattle.machine_record.specs.Places.{lane_from, entry_from};
ghost use Rattle.machine_record.specs.Fields.{fields_in};
ghost use Rattle.text_run.specs.Places.{next_row};

use file_format::fields::{quad_at, word_at};
use sheet_rows::parts::parts_of;

// The byte of a state record at which lane t begins.
pub fn lane_from(t: u8) -> usize
    ensures { (result ≡ lane_from t) × (result < 2 ^ 20) }
{
    88 + 548 * (t as usize)
}

// The byte at which the entry in place i of its pending list begins.
pub fn entry_from(t: u8, i: usize) -> usize
    requires { i < 2 ^ 20 }
    ensures { (result ≡ entry_from t i) × (result < 2 ^ 24) }
{
    lane_from(t) + 36 + 8 * i
}

// Its register n.
pub fn register_at(s: &[u8], t: u8, n: u8) -> u32
    ensures { result ≡ (fields_in s.now).register t n }
{
    quad_at(s, lane_from(t) + 4 + 4 * (n as usize))
}

// The byte of the rows at which lane t begins; 0 for a lane that no kernel has.
fn first_row(rows: &[u8], t: u8) -> usize
    ensures { (result ≡ get_or (parts_in rows.now).from t 0) × (result < 2 ^ 24) }
{
    parts_of(rows).from.get(t as usize).copied().unwrap_or(0)
}

// The byte at which its next instruction begins.
pub fn next_row(rows: &[u8], before: &[u8], t: u8) -> usize
    ensures { (result ≡ next_row rows.now (fields_in before.now) t) × (result < 2 ^ 32) }
{
    first_row(rows, t) + 8 * usize::from(word_at(before, lane_from(t)))
}
