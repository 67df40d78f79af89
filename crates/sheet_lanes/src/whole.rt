// The lanes of a sheet, written by their plans.
ghost use Rattle.std.specs.Prelude.{◌≡◌, ◌+◌, ◌*◌, ◌≤◌, length, drop};
ghost use Rattle.std.proofs.lemmas.List.Edits.{sets};
ghost use Rattle.sheet_format.specs.Put.{Puts, in_turn};
ghost use Rattle.sheet_rows.specs.Rows.{parts_in};
ghost use Rattle.sheet_lanes.specs.Put.{lane_rows, SingleTo};
ghost use Rattle.sheet_lanes.specs.Rows.{Short, plan_from, SingleIn, lane_text};

use crate::codes::Encoder;
use sheet_format::Level;
use sheet_rows::parts::Parts;

impl Encoder {
    // Writes the lane of n rows that begin at byte `first` by its plan, which begins at `place`, from `at` on; the
    // position behind it. A function of its own, so that the proof of the loop below has what the slices keep from
    // one contract.
    fn put_lane(
        self,
        out: &mut [u8],
        at: usize,
        rows: &[u8],
        first: usize,
        n: usize,
        plan: &[u32],
        place: usize,
    ) -> usize
        requires n_in_bounds { (first + 8 * n ≤ length rows.now) × (place + n ≤ length plan.now) }
        requires single_to { SingleTo (drop place plan.now) n }
        requires n_in_bounds_2 { at + length
            (lane_rows self.level (drop place plan.now) (drop first rows.now) n) ≤ length out.old }
        ensures { Puts out.old at
            (lane_rows self.level (drop place plan.now) (drop first rows.now) n) out.new result }
    {
        let wrote = self.write_lane(&mut out[at..], &rows[first..], n, &plan[place..]);
        at + wrote
    }
}

// Writes the four lanes by their plans behind the header.
#[tactic(auto, using(crate::proofs::Laws::Rows::part_few))]
pub fn write_lanes(level: Level, out: &mut [u8], rows: &[u8], parts: Parts, plan: &[u32])
    requires short { Short rows.now × (parts ≡ parts_in rows.now) × (plan_from rows.now 4 ≤ length plan.now) }
    requires single_in { SingleIn rows.now plan.now }
    requires plan_in_bounds { 16 + length (in_turn (lane_text level rows.now plan.now) 4) ≤ length out.old }
    ensures { out.new ≡ sets out.old 16
        (in_turn (lane_text level rows.now plan.now) 4) }
{
    let encoder = Encoder::new(level);
    let from = parts.from;
    let count = parts.count;
    let mut at = 16;
    let mut place = 0;
    for t in 0..4 {
        at = encoder.put_lane(out, at, rows, from[t], count[t], plan, place);
        place += count[t] + 1;
    }
}
