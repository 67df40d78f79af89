// A lane's part of a sheet.
ghost use Rattle.std.specs.Prelude.{◌*◌, ◌≤◌, length};
ghost use Rattle.sheet_format.specs.Put.{Puts};
ghost use Rattle.sheet_lanes.specs.Put.{lane_rows, SingleTo};

use crate::codes::Encoder;

impl Encoder {
    // Writes the lane of these n rows by its plan, from the front of `part`, which begins behind the header and the
    // earlier lanes; the bytes it wrote.
    pub(crate) fn write_lane(self, part: &mut [u8], rows: &[u8], n: usize, plan: &[u32]) -> usize
        requires rows { (8 * n ≤ length rows.now) × (n ≤ length plan.now) × SingleTo plan.now n }
        requires room { length (lane_rows self.level plan.now rows.now n) ≤ length part.old }
        ensures { Puts part.old 0 (lane_rows self.level plan.now rows.now n) part.new result }
    {
        let mut at = 0;
        for p in 0..n {
            at = self.put_step(part, at, rows, p, plan);
        }
        at
    }
}
