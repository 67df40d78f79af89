// Writing an operation's row behind the barriers that stand before it.
ghost use Rattle.std.specs.Prelude.{◌≡◌, ◌+◌, ◌*◌, ◌<◌, ◌≤◌, length, get_or, drop};
ghost use Rattle.std.proofs.lemmas.List.Edits.{sets};
ghost use Rattle.sheet_format.specs.Bytes.{row};
ghost use Rattle.sheet_format.specs.Put.{Puts};
ghost use Rattle.sheet_lanes.specs.Put.{row_if, Begins, Single, load_rows};
ghost use Rattle.sheet_lanes.specs.Put.{barrier_rows, own_row, step_rows};

use crate::codes::Encoder;
use crate::starts::beginning;
use sheet_format::Level;
use sheet_rows::put::{copy_eight, put_quad, store_row};

// The code of LL. LS is the one behind it.
const LL: u8 = 11;

// Writes a barrier's row from `at` on; the position behind it where it stands, else `at`, and what follows is written
// over it: faster than a test, which could not be predicted.
fn put_barrier(out: &mut [u8], at: usize, stands: bool, code: u8) -> usize
    requires { at + 8 ≤ length out.old }
    ensures bytes { out.new ≡ sets out.old at (row code 0 0 0) }
    ensures behind { result ≡ at + length (row_if stands code) }
{
    store_row(out, at, code, 0, 0, 0);
    at + 8 * usize::from(stands)
}

impl Encoder {
    // Writes the LL or LS of a plan's set from `at` on, which level 1 alone keeps; the position behind it.
    fn put_loads(self, out: &mut [u8], at: usize, set: u32) -> usize
        requires { Single set × (at + 8 ≤ length out.old) }
        ensures { Begins out.old at (load_rows self.level set) out.new result }
    {
        let loads = set % 4;
        match self.level {
            Level::Level1 => put_barrier(out, at, loads != 0, LL + (loads / 2) as u8),
            Level::Level0 | Level::Level2 | Level::Level3 => at,
        }
    }

    // Writes those barriers of a plan's set that the level keeps from `at` on, LL or LS and then SS or SL; the
    // position behind them.
    fn put_barriers(self, out: &mut [u8], at: usize, set: u32) -> usize
        requires { Single set × (at + length (barrier_rows self.level set) + 8 ≤ length out.old) }
        ensures { Begins out.old at (barrier_rows self.level set) out.new result }
    {
        let behind = self.put_loads(out, at, set);
        let code = ((self.codes >> (8 * (set / 4 % 8))) % 256) as u8;
        put_barrier(out, behind, code != 0, code)
    }

    // Writes an operation's row from `at` on, a SKIP's aimed at where its target begins in the sheet. The row is
    // copied whole, and a SKIP's target written over its last half.
    fn put_own(self, out: &mut [u8], at: usize, rows: &[u8], from: usize, plan: &[u32])
        requires { (at + 8 ≤ length out.old) × (from + 8 ≤ length rows.now) }
        ensures { out.new ≡ sets out.old at (own_row self.level plan.now (drop from rows.now)) }
    {
        copy_eight(out, at, rows, from);
        // SKIP's code stays a number: one test of the code's byte a row, as fast as the bar asks.
        if rows[from] == 7 {
            let target = beginning(self.level, plan, usize::from(rows[from + 4]));
            put_quad(out, at + 4, target);
        }
    }

    // Writes row p from `at` on, behind the barriers that stand before it; the position behind it.
    pub(crate) fn put_step(
        self,
        out: &mut [u8],
        at: usize,
        rows: &[u8],
        p: usize,
        plan: &[u32],
    ) -> usize
        requires p_in_bounds { (8 * p + 8 ≤ length rows.now) × (p < length plan.now) × Single (get_or plan.now p 0) }
        requires p_in_bounds_2 { at + length (step_rows self.level plan.now rows.now p) ≤ length out.old }
        ensures { Puts out.old at (step_rows self.level plan.now rows.now p) out.new result }
    {
        let behind = self.put_barriers(out, at, plan[p]);
        self.put_own(out, behind, rows, 8 * p, plan);
        behind + 8
    }
}
