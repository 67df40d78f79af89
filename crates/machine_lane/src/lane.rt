// A lane of a machine: its position, its eight registers, its pending stores, oldest first, and the marks in them, as
// the bits of a number. A method reads and changes an array in a local of its own: the rest of a lane that was taken
// from the state is not copied then, and a move takes less (measured).
ghost use Rattle.std.specs.Prelude.{◌≡◌, ℕ, ◌≤◌, ◌<◌, length};
ghost use Rattle.machine_spec.specs.Entries.{is_sync, newest, without};
ghost use Rattle.machine_lane.specs.Lanes.{flags, entry_of, lane_in, with_pending, Appended};

use crate::marks::whole;

// A pending entry has a cell: a location from 0 to 15, or 16 + lock for a release, and the value for the location.
// Cells and values stay two rows of fixed size with a length, as the lent state holds them: a row is copied as one.
// The marks are in two halves: a field of 64 bits makes every copy of a lane slower.
#[derive(Clone, Copy)]
pub struct Lane {
    pub at: u32,
    pub registers: [u32; 8],
    pub cells: [u32; 64],
    pub values: [u32; 64],
    pub len: u32,
    pub low: u32,
    pub high: u32,
}

// Whether a location is volatile.
pub fn is_volatile(volatile: &[bool], x: u32) -> bool
    ensures { result ≡ flags volatile.now x }
{
    volatile.get(x as usize).copied().unwrap_or(false)
}

// Whether an entry for the cell is a volatile store or a release.
pub fn is_sync(volatile: &[bool], cell: u32) -> bool
    ensures { (v : ℕ) → result ≡ is_sync (flags volatile.now) (entry_of cell v) }
{
    cell >= 16 || is_volatile(volatile, cell)
}

impl Lane {
    // How many entries are pending.
    pub fn count(&self) -> usize
        ensures { (result ≡ length (lane_in self.now).pending) × (result ≤ 64) }
    {
        (self.len as usize).min(64)
    }

    // The marks in the pending list.
    pub fn marks(&self) -> u64
        ensures { result ≡ (lane_in self.now).control.marks }
    {
        whole(self.low, self.high)
    }

    // The entry goes to the end of the pending list.
    pub fn append(&mut self, cell: u32, value: u32)
        requires { length (lane_in self.old).pending < 64 }
        ensures { Appended self.old cell value self.new }
    {
        let n = self.len as usize;
        let mut c = self.cells;
        c[n] = cell;
        self.cells = c;
        let mut v = self.values;
        v[n] = value;
        self.values = v;
        self.len += 1;
    }

    // The entry at an index leaves the pending list. By value: through a reference the cells are copied once more.
    pub fn commit(mut self, index: usize) -> Lane
        requires { index < length (lane_in self).pending }
        ensures { lane_in result ≡ with_pending (lane_in self) (without index (lane_in self).pending) }
    {
        let last = self.count() - 1;
        let mut c = self.cells;
        let mut v = self.values;
        for i in index..last {
            c[i] = c[i + 1];
            v[i] = v[i + 1];
        }
        self.cells = c;
        self.values = v;
        self.len = last as u32;
        self
    }

    // The newest pending value for a location, else `otherwise`.
    pub fn newest(&self, cell: u32, otherwise: u32) -> u32
        requires { cell < 16 }
        ensures { result ≡ newest cell otherwise (lane_in self.now).pending }
    {
        let c = self.cells;
        for i in (0..self.count()).rev() {
            if c[i] == cell {
                let v = self.values;
                return v[i];
            }
        }
        otherwise
    }
}
