// The plans of the lanes, before any of them is written.
ghost use Rattle.std.specs.Prelude.{◌≡◌, ℕ, ◌+◌, ◌*◌, ◌≤◌, ◌<◌, length, get_or, drop};
ghost use Rattle.sheet_rows.specs.Rows.{parts_in};
ghost use Rattle.sheet_lanes.specs.Rows.{Short, PlanFor, plan_from, PlansTo};

use barrier_pass::place::place_lane;
use barrier_pass::table::Tables;
use sheet_rows::parts::Parts;

// Writes the plan of the lane of n rows that begin at byte `first`, from `place` of `plan` on; the number of its end.
// A function of its own, so that the proof of the loop below has what the slices keep from one contract.
fn plan_at(
    tables: &Tables,
    rows: &[u8],
    first: usize,
    n: usize,
    mask: u16,
    plan: &mut [u32],
    place: usize,
) -> u32
    requires room { (n ≤ 64) × (first + 8 * n ≤ length rows.now) × (place + n < length plan.old) }
    ensures lane { PlanFor (drop first rows.now) n mask (drop place plan.new) }
    ensures end { result ≡ get_or (drop place plan.new) n 0 }
    ensures before { (i : ℕ) → i < place → get_or plan.new i 0 ≡ get_or plan.old i 0 }
{
    place_lane(tables, &rows[first..], n, mask, &mut plan[place..])
}

// The plans of the four lanes one behind the other, each with one number more than the lane has rows; the number that
// each has of its lane's end.
#[tactic(auto, using(crate::proofs::Laws::Rows::part_few))]
pub fn plan_lanes(rows: &[u8], parts: Parts, mask: u16, plan: &mut [u32]) -> [u32; 4]
    requires { Short rows.now × (parts ≡ parts_in rows.now) × (plan_from rows.now 4 ≤ length plan.old) }
    ensures { PlansTo rows.now mask plan.new result 4 }
{
    let tables = Tables::new();
    let from = parts.from;
    let count = parts.count;
    let mut ends = [0u32; 4];
    let mut place = 0;
    for t in 0..4 {
        ends[t] = plan_at(&tables, rows, from[t], count[t], mask, plan, place);
        place += count[t] + 1;
    }
    ends
}
