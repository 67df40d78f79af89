// The refusal of a kernel file of whatever bytes, or that it is accepted, with its chains as rows.
ghost use Rattle.std.specs.Prelude.{◌≡◌, ◌+◌, ◌*◌, ◌≤◌, ◌<◌, length, replicate, take};
ghost use Rattle.file_format.specs.Fields.{record_count};
ghost use Rattle.file_format.specs.Structured.{Fielded};
ghost use Rattle.file_format.specs.Accepted.{program_of};
ghost use Rattle.file_format.specs.Linkage.{bad_linkage, chain_too_long};
ghost use Rattle.file_format.specs.Targets.{bad_target};
ghost use Rattle.file_verdict.specs.Verdict.{verdict, accepted, refusal_of, fields_then};
ghost use Rattle.sheet_format.specs.declared.Level.TheVariants.{Level0};
ghost use Rattle.sheet_format.specs.Bytes.{over, sheet_bytes};
ghost use Rattle.file_accept.specs.Checks.{linked_refusal};
ghost use Rattle.file_accept.specs.Order.{lane_order};

use file_chains::link::link;
use file_chains::targets::{bad_target, too_long};
use file_fields::header::{bad_length, header_rule};
use file_fields::rules::bad_record;
use file_locks::lock_refusal;
use file_rows::whole::write_chains;
use file_verdict::refusal::Refusal;

// Checks 1 to 4, which need no buffer: whether the header and the records keep their rules. A call would pass the
// answer through memory.
#[inline(always)]
pub fn field_refusal(file: &[u8]) -> Result<(), Refusal>
    ensures { result ≡ fields_then file.now (Ok tt) }
{
    if file.len() < 16 {
        return Err(Refusal::TruncatedHeader);
    }
    if !header_rule(file) {
        return Err(Refusal::BadHeader);
    }
    if bad_length(file) {
        return Err(Refusal::BadLength);
    }
    if let Some(record) = bad_record(file) {
        return Err(Refusal::BadRecord(record));
    }
    Ok(())
}

// Checks 5 to 8 and 12, on a file that checks 1 to 4 pass. Its chains are written, and the records
// stand in `order` lane after lane, once 5 to 7 have passed. What it leaves in `place` is open.
pub fn linked_refusal(
    file: &[u8],
    rows: &mut [u8],
    order: &mut [u16],
    place: &mut [u16],
) -> Result<(), Refusal>
    requires fields { Fielded file.now }
    requires room { 16 + 8 * record_count file.now ≤ length rows.old }
    requires order { (record_count file.now ≤ length order.old) × (record_count file.now < length place.old) }
    requires blank { place.old ≡ replicate (length place.old) 0 }
    ensures answer { result ≡ linked_refusal file.now }
    ensures rows { bad_linkage file.now ≡ 0 → chain_too_long file.now ≡ 0
        → bad_target file.now ≡ 0
        → (rows.new ≡ over (sheet_bytes Level0 (program_of file.now)) rows.old)
        × (length (sheet_bytes Level0 (program_of file.now)) ≡ 16 + 8 * record_count file.now) }
    ensures order { bad_linkage file.now ≡ 0 → chain_too_long file.now ≡ 0
        → bad_target file.now ≡ 0
        → take (record_count file.now) order.new ≡ lane_order (program_of file.now) }
{
    let ends = match link(file, order, place) {
        Ok(ends) => ends,
        Err(linkage) => return Err(Refusal::BadLinkage(linkage)),
    };
    if let Some(long) = too_long(file, order, &ends) {
        return Err(Refusal::ChainTooLong(long));
    }
    if let Some(target) = bad_target(file, place, &ends) {
        return Err(Refusal::BadTarget(target));
    }
    write_chains(rows, file, order, place, &ends);
    lock_refusal(file, rows, order, &ends)
}

// The refusal, checks 1 to 8 and 12 in the order of the table. The chains of an accepted file stand at the front of
// `rows`, which a refusal leaves open.
pub fn accept(file: &[u8], rows: &mut [u8]) -> Result<(), Refusal>
    requires room { Fielded file.now → 16 + 8 * record_count file.now ≤ length rows.old }
    ensures answer { result ≡ refusal_of file.now }
    ensures rows { verdict file.now ≡ accepted (program_of file.now)
        → rows.new ≡ over (sheet_bytes Level0 (program_of file.now)) rows.old }
{
    field_refusal(file)?;
    let mut order = [0u16; 256];
    let mut place = [0u16; 257];
    linked_refusal(file, rows, &mut order, &mut place)
}
