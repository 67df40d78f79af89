// The pages of a kernel file of whatever bytes, written into an output buffer of whatever length.
ghost use Rattle.std.specs.Prelude.{◌≡◌, ◌+◌, ◌*◌, ◌≤◌};
ghost use Rattle.file_format.specs.Accepted.{Program};
ghost use Rattle.sheet_format.specs.Bytes.{write_into};
ghost use Rattle.text_page.specs.Pages.{page_count, page_text, write_page};
ghost use Rattle.text_page.specs.Given.{Given};

use crate::line::put_heading;
use crate::lines::put_lines;
use file_verdict::refusal::Refusal;
use sheet_format::{Level, WriteResult};
use sheet_lower::lower::lower_ordered;

// The bytes of the pages of n lines.
fn page_size(n: usize) -> usize
    requires { n ≤ 512 }
    ensures { result ≡ 33 * (n + page_count n) }
{
    if n == 0 {
        return 33;
    }
    33 * (n + n.div_ceil(55))
}

// The pages from the n rows of a level 2 sheet and the records in the order of its lanes; 9, and `out` as it was, where
// they do not fit.
fn put_pages(sheet: &[u8], order: &[u16], n: usize, out: &mut [u8]) -> WriteResult
    requires { (k : Program) × Given k sheet.now order.now n }
    ensures { (k : Program) → Given k sheet.now order.now n
        → (result, out.new) ≡ write_into (page_text k) out.old }
{
    let size = page_size(n);
    if out.len() < size {
        return Err(Refusal::ShortBuffer);
    }
    if n == 0 {
        put_heading(out, 0, 1);
    } else {
        put_lines(out, sheet, order, n);
    }
    Ok(size)
}

// The pages of the level 2 sheet at the front of `out`; a refusal, 9 for a buffer that is too short, leaves `out` as it
// was.
pub fn write_page(file: &[u8], out: &mut [u8]) -> WriteResult
    ensures { (result, out.new) ≡ write_page file.now out.old }
{
    let mut sheet = [0u8; 4112];
    let mut order = [0u16; 256];
    let size = lower_ordered(Level::Level2, file, &mut sheet, &mut order)?;
    put_pages(&sheet, &order, (size - 16) / 8, out)
}
