// Memory and the lock words of the borrowed state.
ghost use Rattle.std.specs.Prelude.{◌≡◌, ◌<◌, get_or, set, take};
ghost use Rattle.machine_state.specs.States.{row_at, with_word, count_of, state_in, Sized, Shared};

use crate::state::{COUNTS, LOCATIONS, LOCKS, LOCKWORDS, MEMORY, SHARED, State, put_word, word_at};

// Word i of shared row j, which has as many words as count k says; 0 past the last one.
fn shared_at(state: &State, j: usize, k: usize, i: u8) -> u32
    requires { Sized state.now × (j < 3) × (k < 64) }
    ensures { result ≡ get_or (take (count_of state.now k) (row_at state.now 4 j)) i 0 }
{
    let n = usize::from(i);
    if n < 64 && u32::from(i) < word_at(state, SHARED, COUNTS, k) {
        word_at(state, SHARED, j, n)
    } else {
        0
    }
}

// Word i of shared row j becomes a value; past the row's end nothing does.
fn set_shared(j: usize, i: u32, value: u32, state: &mut State)
    requires { Sized state.old × (j < 3) }
    ensures { state.new ≡ with_word state.old 4 j i value }
{
    let n = i as usize;
    if n < 64 {
        put_word(SHARED, j, n, value, state);
    }
}

// Memory and the lock words have functions of their own: each has a part of the state in its contract, and no more code
// than a call.

// The value of location x; 0 past the last one.
pub fn memory_at(state: &State, x: u8) -> u32
    requires { Sized state.now }
    ensures { result ≡ get_or (state_in state.now).memory x 0 }
{
    shared_at(state, MEMORY, LOCATIONS, x)
}

// The word of lock l; 0 past the last one.
pub fn lock_at(state: &State, l: u8) -> u32
    requires { Sized state.now }
    ensures { result ≡ get_or (state_in state.now).locks l 0 }
{
    shared_at(state, LOCKWORDS, LOCKS, l)
}

// Location x becomes a value; past the last one nothing does.
pub fn set_memory(x: u32, value: u32, state: &mut State)
    requires { Sized state.old }
    ensures { Shared state.old (set (state_in state.old).memory x value)
        (state_in state.old).locks state.new }
{
    set_shared(MEMORY, x, value, state);
}

// The word of lock l becomes a value; past the last one nothing does.
pub fn set_lock(l: u32, value: u32, state: &mut State)
    requires { Sized state.old }
    ensures { Shared state.old (state_in state.old).memory
        (set (state_in state.old).locks l value) state.new }
{
    set_shared(LOCKWORDS, l, value, state);
}
