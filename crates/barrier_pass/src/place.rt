// The placement: one pass over a lane's rows that carries what is due, for each later class a set of barriers, and
// writes the lane's plan, for each position a set of barriers and where it begins at each level.
// A set of barriers is a number below 16: bit 0 is LL, 1 LS, 2 SS and 3 SL. What is due is four such numbers in one.
// The plan's set has bit 4 besides, where the operation drains, as LOCK does.
ghost use Rattle.std.specs.Prelude.{◌≡◌, not, ◌&&◌, ◌||◌, List, ℕ, ◌+◌, ◌*◌, ◌<◌, ◌≤◌, ◌^◌, length, set as update};
ghost use Rattle.std.specs.Prelude.{get_or};
ghost use Rattle.file_format.specs.Accepted.{is_volatile};
ghost use Rattle.file_format.specs.declared.accepted.Op.{Op};
ghost use Rattle.barrier_placement.specs.declared.cookbook.Barrier.{Barrier};
ghost use Rattle.barrier_placement.specs.declared.cookbook.Class.{Class};
ghost use Rattle.barrier_placement.specs.declared.steps.Step.{Step};
ghost use Rattle.barrier_placement.specs.Place.{stands_at, raises as raisesFor};
ghost use Rattle.barrier_placement.specs.Placed.{bit, bit_of, due_in};
ghost use Rattle.sheet_rows.specs.Lanes.{fields_of, Holds};
ghost use Rattle.barrier_pass.specs.Known.{known_of};
ghost use Rattle.barrier_pass.specs.Plan.{plan_set, plan_number};

use crate::steps::{known_of, landing_of};
use crate::table::Tables;
use sheet_rows::read::whole_row;

// Times this, a set of barriers stands in the place of each class.
const IN_EACH_CLASS: u16 = 0x1111;

// The operation code of LOCK.
const LOCK: u8 = 5;

// The barriers that stand before a step of which x is known, given what is due there.
fn stands_at(x: u32, due: u16) -> u16
    ensures { ((s : Step) (b : Barrier) → x ≡ known_of s → bit result (bit_of b) ≡ stands_at s (due_in due b))
        × (result < 16) }
{
    ((u32::from(due) >> (x % 32)) % 16) as u16
}

// What a step of which x is known calls for.
fn raises(x: u32) -> u16
    requires { x < 2 ^ 21 }
    ensures { (s : Step) (b : Barrier) → x ≡ known_of s → (c : Class) → due_in result b c ≡ raisesFor b s c }
{
    (x / 32) as u16
}

// What is due after a step: what was due before it but for the barriers that stand there, and what the step calls for.
fn after(stood: u16, due: u16, new: u16) -> u16
    requires { stood < 16 }
    ensures { (b : Barrier) (c : Class) → due_in result b c
        ≡ ((not (bit stood (bit_of b)) && due_in due b c) || due_in new b c) }
{
    let met = due & (stood * IN_EACH_CLASS);
    (due ^ met) | new
}

// The set that the plan has for the operation with this code.
fn plan_set(code: u8, stood: u16) -> u32
    requires { stood < 16 }
    ensures { ((o : Op) → code ≡ (fields_of o).code → result ≡ plan_set o stood) × (result < 32) }
{
    u32::from(stood) + 16 * u32::from(code == LOCK)
}

// Writes position p of the plan, which begins at `at`; where the next position begins.
fn plan_step(tables: &Tables, plan: &mut [u32], p: usize, at: u32, set: u32) -> u32
    requires { (p < length plan.old) × (at ≤ 6308000 * p) × (p < 64) × (set < 32) }
    ensures plan { plan.new ≡ update plan.old p (at + set) }
    ensures next { (result ≡ at + get_or tables.now.widths set 0) × (result ≤ 6308000 * (p + 1)) }
{
    plan[p] = at + set;
    at + tables.widths[set as usize]
}

// Writes the plan of the lane whose n rows are given; the number that it has of the lane's end.
// A SKIP brings what is due to its target; a jump back brings nothing to the positions ahead.
pub fn place_lane(tables: &Tables, rows: &[u8], n: usize, mask: u16, plan: &mut [u32]) -> u32
    requires room { (n ≤ 64) × (8 * n ≤ length rows.now) × (n < length plan.old) }
    ensures end { result ≡ get_or plan.new n 0 }
    ensures numbers { (ops : List Op) → Holds rows.now n ops → (p : ℕ) → p ≤ n
        → get_or plan.new p 0 ≡ plan_number (is_volatile mask) ops p }
    ensures rest { (p : ℕ) → n < p → get_or plan.new p 0 ≡ get_or plan.old p 0 }
{
    let mut due = 0u16;
    let mut brought = [0u16; 65];
    let mut at = 0u32;
    for p in 0..n {
        let row = whole_row(rows, 8 * p);
        let x = known_of(tables, row.code, row.b, mask);
        let here = due | brought[p];
        let stood = stands_at(x, here);
        at = plan_step(tables, plan, p, at, plan_set(row.code, stood));
        due = after(stood, here, raises(x));
        let t = landing_of(row.code, row.word);
        if p < t {
            brought[t] = due | brought[t];
        }
    }
    plan[n] = at;
    at
}
