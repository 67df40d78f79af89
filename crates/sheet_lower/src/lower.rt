// A kernel file of whatever bytes, lowered into an output buffer of whatever length.
ghost use Rattle.std.specs.Prelude.{◌≡◌, ◌+◌, ◌*◌, ◌≤◌, ◌<◌, length, replicate, take};
ghost use Rattle.file_format.specs.Fields.{record_count};
ghost use Rattle.file_format.specs.Structured.{Fielded};
ghost use Rattle.file_format.specs.Accepted.{program_of};
ghost use Rattle.file_verdict.specs.Verdict.{verdict, accepted};
ghost use Rattle.file_accept.specs.Order.{lane_order};
ghost use Rattle.sheet_format.specs.Bytes.{lower_by, lower1 as lowered1, lower2 as lowered2, lower3 as lowered3};

use crate::whole::write_sheet;
use file_accept::accept::{field_refusal, linked_refusal};
use file_verdict::refusal::Refusal;
use sheet_format::{Level, WriteResult};

// A file that checks 1 to 4 let pass, through its chains in `rows` and its lanes' plans in `plan`.
fn lower_in(
    level: Level,
    file: &[u8],
    out: &mut [u8],
    rows: &mut [u8],
    order: &mut [u16],
    place: &mut [u16],
    plan: &mut [u32],
) -> WriteResult
    requires fields { Fielded file.now }
    requires rows { (16 + 8 * record_count file.now ≤ length rows.old)
        × (record_count file.now + 4 ≤ length plan.old) }
    requires order { (record_count file.now ≤ length order.old) × (record_count file.now < length place.old) }
    requires blank { place.old ≡ replicate (length place.old) 0 }
    ensures answer { (result, out.new) ≡ lower_by level (verdict file.now) out.old }
    ensures order { verdict file.now ≡ accepted (program_of file.now)
        → take (record_count file.now) order.new ≡ lane_order (program_of file.now) }
{
    linked_refusal(file, rows, order, place)?;
    let size = write_sheet(level, out, file, rows, plan);
    if out.len() < size {
        return Err(Refusal::ShortBuffer);
    }
    Ok(size)
}

// The same through buffers of its own, of these sizes: without clearing more than the file's chains take.
fn lower_within<const ROWS: usize, const ORDER: usize, const PLACES: usize, const PLANS: usize>(
    level: Level,
    file: &[u8],
    out: &mut [u8],
) -> WriteResult
    requires fields { Fielded file.now }
    requires rows { (16 + 8 * record_count file.now ≤ ROWS) × (record_count file.now + 4 ≤ PLANS) }
    requires order { (record_count file.now ≤ ORDER) × (record_count file.now < PLACES) }
    requires small { (ROWS < 65536) × (ORDER < 65536) × (PLACES < 65536) × (PLANS < 65536) }
    ensures { (result, out.new) ≡ lower_by level (verdict file.now) out.old }
{
    let mut rows = [0u8; ROWS];
    let mut order = [0u16; ORDER];
    let mut place = [0u16; PLACES];
    let mut plan = [0u32; PLANS];
    lower_in(
        level, file, out, &mut rows, &mut order, &mut place, &mut plan,
    )
}

// The sheet of a level, as `lower` writes it, and the records of an accepted file in the order of its lanes at the
// front of `order`. What stands behind them, and all of `order` where the file is refused, is open.
pub fn lower_ordered(level: Level, file: &[u8], out: &mut [u8], order: &mut [u16]) -> WriteResult
    requires { 256 ≤ length order.old }
    ensures answer { (result, out.new) ≡ lower_by level (verdict file.now) out.old }
    ensures order { verdict file.now ≡ accepted (program_of file.now)
        → take (record_count file.now) order.new ≡ lane_order (program_of file.now) }
{
    field_refusal(file)?; // before a buffer is cleared
    let mut rows = [0u8; 2064];
    let mut place = [0u16; 257];
    let mut plan = [0u32; 260];
    lower_in(level, file, out, &mut rows, order, &mut place, &mut plan)
}

// The sheet of a level at the front of `out`; a refusal, 9 for a buffer that is too short, leaves `out` as it was.
// Nothing is cleared before header and records are judged, and then no more than the file's length asks for.
pub fn lower(level: Level, file: &[u8], out: &mut [u8]) -> WriteResult
    ensures { (result, out.new) ≡ lower_by level (verdict file.now) out.old }
{
    field_refusal(file)?; // before a buffer is chosen
    if file.len() <= 208 {
        // at most 16 records
        return lower_within::<144, 16, 17, 20>(level, file, out);
    }
    if file.len() <= 784 {
        // at most 64
        return lower_within::<528, 64, 65, 68>(level, file, out);
    }
    lower_within::<2064, 256, 257, 260>(level, file, out)
}

// The level 1 sheet at the front of `out`; a refusal, 9 for a buffer that is too short, leaves `out` as it was.
pub fn lower1(file: &[u8], out: &mut [u8]) -> WriteResult
    ensures { (result, out.new) ≡ lowered1 file.now out.old }
{
    lower(Level::Level1, file, out)
}

// The level 2 sheet, likewise.
pub fn lower2(file: &[u8], out: &mut [u8]) -> WriteResult
    ensures { (result, out.new) ≡ lowered2 file.now out.old }
{
    lower(Level::Level2, file, out)
}

// The level 3 sheet, likewise.
pub fn lower3(file: &[u8], out: &mut [u8]) -> WriteResult
    ensures { (result, out.new) ≡ lowered3 file.now out.old }
{
    lower(Level::Level3, file, out)
}
