// The text of a pending entry.
ghost use Rattle.std.specs.Prelude.{◌+◌, ◌≤◌, ◌<◌, ◌^◌};
ghost use Rattle.sheet_format.specs.Put.{Puts};
ghost use Rattle.machine_record.specs.Fields.{entry_in};
ghost use Rattle.text_run.specs.Lanes.{entry_text};

use file_format::fields::{byte_at, quad_at};
use text_put::words::put_one;

// The entry whose bytes begin at `from`: a store, which is kind 1, or the release of a lock.
pub fn put_entry(out: &mut [u8], at: usize, s: &[u8], from: usize) -> usize
    requires { (at + 36 ≤ 2 ^ 62) × (from < 2 ^ 24) }
    ensures { (result ≤ at + 36)
        × Puts out.old at (entry_text (entry_in s.now from)) out.new result }
{
    let place = byte_at(s, from + 1) as u32;
    if byte_at(s, from) == 1 {
        let i = put_one(out, at, b"location ", place);
        return put_one(out, i, b" value ", quad_at(s, from + 4));
    }
    put_one(out, at, b"release ", place)
}
