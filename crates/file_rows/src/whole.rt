// The chains of a file behind a header, once checks 1 to 7 have passed.
ghost use Rattle.std.specs.Prelude.{◌≡◌, ◌+◌, ◌*◌, ◌≤◌, length};
ghost use Rattle.std.proofs.lemmas.List.Edits.{sets};
ghost use Rattle.file_format.specs.Fields.{record_count};
ghost use Rattle.file_format.specs.Structured.{Structured};
ghost use Rattle.file_format.specs.Accepted.{program_of};
ghost use Rattle.file_chains.specs.Ordered.{Ordered};
ghost use Rattle.sheet_format.specs.declared.Level.TheVariants.{Level0};
ghost use Rattle.sheet_format.specs.Bytes.{over, sheet_bytes};
ghost use Rattle.sheet_format.specs.Put.{in_turn};
ghost use Rattle.file_rows.specs.Chains.{chain_at};

use crate::chain::write_chain;
use file_format::fields::{byte_at, word_at};
use sheet_rows::put::{put_counts, put_first};

// Writes the four lanes behind the header.
fn write_lanes(out: &mut [u8], s: &[u8], order: &[u16], place: &[u16], ends: &[usize; 4])
    requires room { 16 + 8 * record_count s.now ≤ length out.old }
    requires structure { Structured s.now }
    requires order { Ordered s.now order.now place.now ends.now }
    ensures { out.new ≡ sets out.old 16 (in_turn (chain_at s.now) 4) }
{
    let mut begin = 0;
    for end in ends {
        write_chain(out, s, order, place, begin, *end);
        begin = *end;
    }
}

// The chains at the front of `out`.
pub fn write_chains(out: &mut [u8], s: &[u8], order: &[u16], place: &[u16], ends: &[usize; 4])
    requires room { 16 + 8 * record_count s.now ≤ length out.old }
    requires structure { Structured s.now }
    requires order { Ordered s.now order.now place.now ends.now }
    ensures { out.new ≡ over (sheet_bytes Level0 (program_of s.now)) out.old }
{
    let mask = word_at(s, 4);
    put_first(out, byte_at(s, 0), byte_at(s, 1), byte_at(s, 2), 0, mask);
    let [a, b, c, d] = *ends;
    put_counts(out, a, b - a, c - b, d - c);
    write_lanes(out, s, order, place, ends);
}
