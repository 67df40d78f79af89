// What a lane's plan says of a position.
ghost use Rattle.std.specs.Prelude.{◌≡◌, get_or, eqb};
ghost use Rattle.sheet_format.specs.Bytes.{level_number};
ghost use Rattle.barrier_pass.specs.Plan.{begin_in};
ghost use Rattle.sheet_lanes.specs.Put.{beginning};

use sheet_format::Level;

// Level 3: its bits in a plan's number stand eight above those of level 2.
fn is_third(level: Level) -> bool
    ensures { result ≡ eqb (level_number level) 3 }
{
    matches!(level, Level::Level3)
}

// Where position p begins at a level, of its number in the plan. Levels 2 and 3 in one: of four arms the compiler makes
// a jump by a table, which is slower.
pub fn begin_in(level: Level, x: u32, p: usize) -> usize
    ensures { result ≡ begin_in level x p }
{
    match level {
        Level::Level0 => p,
        Level::Level1 => ((x >> 5) % 256) as usize,
        Level::Level2 | Level::Level3 => ((x >> (13 + 8 * u32::from(is_third(level))))
            % 256) as usize,
    }
}

// The number of position p; 0 past the plan.
fn number_at(plan: &[u32], p: usize) -> u32
    ensures { result ≡ get_or plan.now p 0 }
{
    plan.get(p).copied().unwrap_or(0)
}

// Where operation p begins at a level, that is, its first barrier.
pub(crate) fn beginning(level: Level, plan: &[u32], p: usize) -> usize
    ensures { result ≡ beginning level plan.now p }
{
    begin_in(level, number_at(plan, p), p)
}
