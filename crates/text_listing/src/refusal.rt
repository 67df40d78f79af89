// The line of a refusal, as bytes.
ghost use Rattle.std.specs.Prelude.{◌≡◌};
ghost use Rattle.sheet_format.specs.Put.{Puts};
ghost use Rattle.sheet_format.specs.Bytes.{write_into};
ghost use Rattle.text_listing.specs.Line.{refusal_line};

use crate::measured::list;
use sheet_format::WriteResult;
use text_put::put::put;
use text_put::words::put_one;

// The line of a refusal, as far as the buffer reaches.
fn put_refusal(out: &mut [u8], number: u32, rec: u32) -> usize
    ensures { Puts out.old 0 (refusal_line number rec) out.new result }
{
    let i = put_one(out, 0, b"refused ", number);
    let j = put_one(out, i, b" record ", rec);
    put(out, j, b'\n')
}

// The line of a refusal at the front of `out`; 9, and `out` as it was, where it does not fit.
pub fn list_refusal(number: u32, rec: u32, out: &mut [u8]) -> WriteResult
    ensures { (result, out.new) ≡ write_into (refusal_line number rec) out.old }
{
    list(|buffer: &mut [u8]| put_refusal(buffer, number, rec), out)
}
