// The texts that are printed of a kernel file of whatever bytes: its level 2 listing or its pages, or its refusal.
#![tactic(auto)]

ghost use Rattle.std.specs.Prelude.{◌≡◌, ◌^◌, ◌<◌};
ghost use Rattle.file_verdict.specs.Verdict.{number_of, record_of};
ghost use Rattle.sheet_format.specs.Bytes.{write_into};
ghost use Rattle.text_listing.specs.Line.{refusal_line};
ghost use Rattle.text_listing.specs.Listing.{printed};
ghost use Rattle.text_kernel.specs.Printed.{printed_pages};

use file_format::fields::word_at;
use file_verdict::number::{number_of, record_of};
use file_verdict::refusal::Refusal;
use sheet_format::WriteResult;
use sheet_lower::lower::lower2;
use text_listing::refusal::list_refusal;
use text_listing::whole::list_sheet;
use text_page::write::write_page;

// The listing at the front of `out`; 9, and `out` as it was, where it does not fit.
pub fn print_kernel(file: &[u8], out: &mut [u8]) -> WriteResult
    ensures { (result, out.new) ≡ write_into (printed file.now) out.old }
{
    let mut sheet = [0u8; 4112];
    match lower2(file, &mut sheet) {
        Err(refusal) => list_refused(refusal, out),
        Ok(_) => list_sheet(&sheet, word_at(file, 4), out),
    }
}

// The pages, likewise. A file is never refused with 9: that is the buffer, which is then as it was.
pub fn print_pages(file: &[u8], out: &mut [u8]) -> WriteResult
    ensures { (result, out.new) ≡ write_into (printed_pages file.now) out.old }
{
    match write_page(file, out) {
        Ok(size) => Ok(size),
        Err(Refusal::ShortBuffer) => Err(Refusal::ShortBuffer),
        Err(refusal) => list_refused(refusal, out),
    }
}

// The line of a refusal at the front of `out`; 9, and `out` as it was, where it does not fit.
fn list_refused(refusal: Refusal, out: &mut [u8]) -> WriteResult
    requires { (number_of refusal < 2 ^ 32) × (record_of refusal < 2 ^ 32) }
    ensures { (result, out.new) ≡ write_into (refusal_line (number_of refusal) (record_of refusal)) out.old }
{
    list_refusal(number_of(refusal) as u32, record_of(refusal) as u32, out)
}
