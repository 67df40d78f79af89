// The tables of the pass: what it knows of a step, from the cookbook's table, and how many instructions an operation
// makes with a set of barriers.
ghost use Rattle.std.specs.Prelude.{◌≡◌, ◌+◌, ◌*◌, ◌≤◌};
ghost use Rattle.barrier_placement.specs.Cookbook.{cell as cell_of};
ghost use Rattle.barrier_placement.specs.Placed.{set_of, row_number};
ghost use Rattle.barrier_pass.specs.Known.{known_table};
ghost use Rattle.barrier_pass.specs.Plan.{Widths};

use barrier_placement::cookbook::{Class, cell};

// Both tables, made once for all the lanes of a sheet: `known` by an operation's code and the kind of its location,
// `widths` by a plan's set.
#[derive(Drop)]
pub struct Tables {
    pub(crate) known: [u32; 16],
    pub(crate) widths: [u32; 32],
    ghost by_code: { known ≡ known_table },
    ghost by_set: { Widths widths },
}

impl Tables {
    pub fn new() -> Self {
        Tables {
            known: known_table(),
            widths: width_table(),
        }
    }
}

// The barrier that an access of class c calls for before one of class d, as a set: LL is its first bit.
fn cell_set(c: Class, d: Class) -> u32
    ensures { (result ≡ set_of (cell_of c d)) × (result ≤ 8) }
{
    match cell(c, d) {
        None => 0,
        Some(b) => 1 << b as u32,
    }
}

// All that an access of class c calls for.
fn row(c: Class) -> u32
    ensures { (result ≡ row_number c) × (result ≤ 34952) }
{
    let pl = cell_set(c, Class::PL);
    let ps = cell_set(c, Class::PS);
    let vl = cell_set(c, Class::VL);
    let vs = cell_set(c, Class::VS);
    pl + 16 * ps + 256 * vl + 4096 * vs
}

// By operation code, at a plain location and then at a volatile one.
pub fn known_table() -> [u32; 16]
    ensures { result ≡ known_table }
{
    let none = 16;
    let pl = 32 * row(Class::PL);
    let ps = 4 + 32 * row(Class::PS);
    let vl = 8 + 32 * row(Class::VL);
    let vs = 12 + 32 * row(Class::VS);
    [
        none, none, none, pl, ps, vl, vs, none, none, none, none, vl, vs, vl, vs, none,
    ]
}

// By a plan's set of barriers: 32 times the instructions that an operation makes behind it at level 1, 8,192 times
// those at level 2 and 2,097,152 times those at level 3.
pub fn width_table() -> [u32; 32]
    ensures { Widths result }
{
    [
        0x202020, 0x202040, 0x202040, 0x202060, 0x402040, 0x402060, 0x402060, 0x402080, 0x404040,
        0x404060, 0x404060, 0x404080, 0x604060, 0x604080, 0x604080, 0x6040a0, 0x202020, 0x202040,
        0x202040, 0x202060, 0x402040, 0x402060, 0x402060, 0x402080, 0x202040, 0x202060, 0x202060,
        0x202080, 0x402060, 0x402080, 0x402080, 0x4020a0,
    ]
}
