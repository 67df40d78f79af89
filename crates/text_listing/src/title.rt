// The first line of a listing, from the bytes of a sheet and the kernel's mask.
ghost use Rattle.std.specs.Prelude.{◌≤◌};
ghost use Rattle.file_format.specs.Fields.{byte};
ghost use Rattle.sheet_format.specs.Put.{Puts};
ghost use Rattle.text_listing.specs.Line.{first_line};
ghost use Rattle.text_listing.specs.Ones.{ones};

use file_format::fields::byte_at;
use text_put::put::put;
use text_put::words::put_one;

// The first line. The volatile locations are the ones of the kernel's mask.
pub(crate) fn put_first(out: &mut [u8], sheet: &[u8], mask: u16) -> usize
    ensures { (result ≤ 75)
        × Puts out.old 0
        (first_line (byte sheet.now 0) (byte sheet.now 1) (ones mask)
        (byte sheet.now 2))
        out.new result }
{
    let i = put_one(out, 0, b"lanes ", u32::from(byte_at(sheet, 0)));
    let j = put_one(out, i, b" locations ", u32::from(byte_at(sheet, 1)));
    let k = put_one(out, j, b" volatile ", u16::count_ones(mask));
    let m = put_one(out, k, b" locks ", u32::from(byte_at(sheet, 2)));
    put(out, m, b'\n')
}
