// The state of four lanes borrowed as one array: its layout, a word read and written, and what a move came to.
ghost use Rattle.std.specs.Prelude.{◌≡◌, ◌<◌};
ghost use Rattle.machine_state.specs.States.{word_at, with_word};

// Blocks of three rows of 64 words: block t below 4 is lane t, and the last one is what the lanes share.
pub type State = [[[u32; 64]; 3]; 5];

// The rows of a lane: registers, position, number of entries and marks; the cells of the pending entries; their values.
pub const HEAD: usize = 0;

pub const CELLS: usize = 1;

pub const VALUES: usize = 2;

// The words of a lane's head after its eight registers.
pub const POSITION: usize = 8;

pub const LENGTH: usize = 9;

// The low and the high half of the marks.
pub const MARKS: usize = 10;

pub const HIGHMARKS: usize = 11;

// The shared block, and its rows.
pub const SHARED: usize = 4;

pub const MEMORY: usize = 0;

pub const LOCKWORDS: usize = 1;

pub const COUNTS: usize = 2;

// The words of the counts.
pub const LANES: usize = 0;

pub const LOCATIONS: usize = 1;

pub const LOCKS: usize = 2;

// Word i of row j of block t.
pub fn word_at(state: &State, t: usize, j: usize, i: usize) -> u32
    requires { (t < 5) × (j < 3) × (i < 64) }
    ensures { result ≡ word_at state.now t j i }
{
    state[t][j][i]
}

// It becomes a value.
pub fn put_word(t: usize, j: usize, i: usize, value: u32, state: &mut State)
    requires { (t < 5) × (j < 3) × (i < 64) }
    ensures { state.new ≡ with_word state.old t j i value }
{
    state[t][j][i] = value;
}

// What a move came to; an UNLOCK of a lock that the lane does not hold is refused.
#[derive(Clone, Copy)]
pub enum Moved {
    Waited,
    Done,
    ReleaseNotHeld,
}
