// What the pass knows of a row, and where it can go besides the next position.
ghost use Rattle.std.specs.Prelude.{◌≡◌, Bool, ℕ, ◌<◌, ◌≤◌, ◌^◌};
ghost use Rattle.file_format.specs.Accepted.{is_volatile};
ghost use Rattle.file_format.specs.declared.accepted.Op.{Op};
ghost use Rattle.barrier_placement.specs.Placed.{landing as landingOf};
ghost use Rattle.barrier_placement.specs.Steps.{step_of};
ghost use Rattle.sheet_rows.specs.Lanes.{fields_of};
ghost use Rattle.barrier_pass.specs.Known.{known_of};

use crate::table::Tables;

// Bit x of the mask. Both tests are made: a jump on the location's kind could not be predicted.
fn is_volatile(mask: u16, x: u8) -> bool
    ensures { result ≡ is_volatile mask x }
{
    ((mask >> (x % 16)) % 2 == 1) & (x < 16)
}

// What the table has of the operation with this code and this operand b. Codes stay numbers here, for the index and the
// test of SKIP's 7: one use of the code's byte a row, as fast as the bar asks.
pub(crate) fn known_of(tables: &Tables, code: u8, b: u8, mask: u16) -> u32
    ensures { ((o : Op) → code ≡ (fields_of o).code → b ≡ (fields_of o).b → result
        ≡ known_of (step_of (is_volatile mask) o))
        × (result < 2 ^ 21) }
{
    let i = code % 8 + 8 * u8::from(is_volatile(mask, b));
    tables.known[usize::from(i)]
}

// Where the operation with this code and this last field lands: at a SKIP's target, else at 0, to which nothing goes
// forward: 0 and not None, so that one test, of the landing against the position, does for both.
pub(crate) fn landing_of(code: u8, t: u32) -> usize
    ensures { ((o : Op) (vol : ℕ → Bool) → code ≡ (fields_of o).code → t ≡ (fields_of o).word → result
        ≡ landingOf (step_of vol o))
        × (result ≤ 64) }
{
    if code != 7 {
        return 0;
    }
    if t <= 64 { t as usize } else { 0 }
}
