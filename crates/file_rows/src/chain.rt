// A lane's rows, written from the file's records.
ghost use Rattle.std.specs.Prelude.{◌≡◌, ◌+◌, ◌*◌, ◌-◌, ◌<◌, ◌≤◌, length, get_or, take, drop};
ghost use Rattle.std.proofs.lemmas.List.Edits.{sets};
ghost use Rattle.file_format.specs.Fields.{target};
ghost use Rattle.file_format.specs.Accepted.{ops_of};
ghost use Rattle.file_chains.specs.Ordered.{landing_in};
ghost use Rattle.sheet_format.specs.Put.{Puts};
ghost use Rattle.sheet_rows.specs.Lanes.{op_rows};
ghost use Rattle.file_rows.specs.Records.{record_row, RecordIn, LaneIn};

use file_format::fields::whole_word;
use sheet_rows::put::copy_eight;

// The position in a lane of n records, the first at `begin` in the order, to which target x leads.
fn landing(place: &[u16], begin: usize, n: usize, x: usize) -> usize
    requires { (x < length place.now) × (¬ x ≡ 0 → begin + 1 ≤ get_or place.now x 0) }
    ensures { result ≡ landing_in place.now begin n x }
{
    if x == 0 {
        n
    } else {
        usize::from(place[x]) - 1 - begin
    }
}

// The row of record r from `at` on: its first eight bytes, of a SKIP with the position that it leads to.
fn put_record(out: &mut [u8], at: usize, s: &[u8], r: usize, place: &[u16], begin: usize, n: usize)
    requires room { at + 8 ≤ length out.old }
    requires known { RecordIn s.now place.now begin n r }
    ensures { out.new ≡ sets out.old at
        (record_row s.now r (landing_in place.now begin n (target s.now r))) }
{
    let from = 4 + 12 * r;
    copy_eight(out, at, s, from);
    // SKIP's code stays a number: one test of the code's byte a row, as fast as the bar asks.
    if s[from] == 7 {
        out[at + 4] = landing(place, begin, n, whole_word(s, from + 8)) as u8;
    }
}

// Writes the rows of the lane whose records stand in the order from `begin` up to `end`; the row of the record at j
// begins at byte 16 + 8 * j.
pub(crate) fn write_chain(
    out: &mut [u8],
    s: &[u8],
    order: &[u16],
    place: &[u16],
    begin: usize,
    end: usize,
)
    requires room { 16 + 8 * end ≤ length out.old }
    requires lane { LaneIn s.now order.now place.now begin end }
    ensures { Puts out.old (16 + 8 * begin)
        (op_rows (ops_of s.now (take (end - begin) (drop begin order.now)))) out.new
        (16 + 8 * end) }
{
    let n = end - begin;
    for p in 0..n {
        let j = begin + p;
        put_record(out, 16 + 8 * j, s, usize::from(order[j]), place, begin, n);
    }
}
