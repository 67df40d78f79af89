// What writes lanes at a level, with the level's codes of SS and SL: a byte for each set of SS, SL and bit 4 of a plan,
// 0 where neither stands.
ghost use Rattle.std.specs.Prelude.{◌≡◌};
ghost use Rattle.sheet_format.specs.declared.Level.TheVariants.{Level1, Level2, Level3};
ghost use Rattle.sheet_lanes.specs.Put.{CodesOf};

use sheet_format::Level;

// The codes are looked up before the lanes are written: a jump by the level at each row is slower.
#[derive(Clone, Copy)]
pub(crate) struct Encoder {
    pub(crate) level: Level,
    pub(crate) codes: u64,
    ghost codes_of: { CodesOf level codes },
}

impl Encoder {
    pub(crate) fn new(level: Level) -> Self
        ensures { result.level ≡ level }
    {
        Encoder {
            level,
            codes: codes_of(level),
        }
    }
}

// A function for each level's codes, not an arm of one match: each is refused by its own edits of must-fail, several
// at once.

// SS and SL, also where the operation drains.
fn first_codes() -> u64
    ensures { CodesOf Level1 result }
{
    0x0d0e_0d00_0d0e_0d00
}

// MFENCE for SL, but not where the operation drains.
fn second_codes() -> u64
    ensures { CodesOf Level2 result }
{
    0x0f0f_0000
}

// SS, and SL where the operation does not drain.
fn third_codes() -> u64
    ensures { CodesOf Level3 result }
{
    0x0d00_0d00_0d0e_0d00
}

fn codes_of(level: Level) -> u64
    ensures { CodesOf level result }
{
    match level {
        Level::Level0 => 0,
        Level::Level1 => first_codes(),
        Level::Level2 => second_codes(),
        Level::Level3 => third_codes(),
    }
}
