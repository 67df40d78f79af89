// What a run returns.
ghost use Rattle.std.specs.Prelude.{◌≡◌, List, ℕ};
ghost use Rattle.machine_spec.specs.Schedule.{Move};
ghost use Rattle.machine_spec.specs.declared.Machine.{Machine};
ghost use Rattle.machine_course.specs.Stands.{Stands, Judged, answer_by};
ghost use Rattle.machine_course.specs.Returned.{Answers, Fits, Holds};
ghost use Rattle.machine_state.specs.States.{SHARED, MEMORY, LOCKWORDS, firsts, word_at, state_in, Sized};

use crate::course::Course;
use file_verdict::refusal::Refusal;
use machine_lane::lane::Lane;
use machine_run::judge::finished;
use machine_start::extent::Extent;
use machine_state::held::take;
use machine_state::state::{
    COUNTS, LANES, LOCATIONS, LOCKS, LOCKWORDS, MEMORY, SHARED, State, word_at,
};

// The end state: so many lanes, words of memory and lock words as its extent says, which are the first of those here.
#[derive(Clone, Copy)]
pub struct End {
    pub extent: Extent,
    pub lanes: [Lane; 4],
    pub memory: [u32; 16],
    pub locks: [u32; 4],
}

// What a run came to; one that did not take place has its refusal.
#[derive(Clone, Copy)]
pub struct Ran {
    pub refusal: Option<Refusal>,
    pub finished: bool,
    pub done: usize,
    pub waited: usize,
    pub end: End,
}

// The first words of memory. One function of both, generic in the size, is no plainer than two of three lines: it needs
// a bound on the size, and one on the row.
fn memory_of(state: &State) -> [u32; 16]
    ensures { result ≡ firsts 16 (word_at state.now SHARED MEMORY) }
{
    let mut memory = [0; 16];
    memory.copy_from_slice(&state[SHARED][MEMORY][..16]);
    memory
}

// The first of the lock words.
fn locks_of(state: &State) -> [u32; 4]
    ensures { result ≡ firsts 4 (word_at state.now SHARED LOCKWORDS) }
{
    let mut locks = [0; 4];
    locks.copy_from_slice(&state[SHARED][LOCKWORDS][..4]);
    locks
}

fn end_of(state: &State) -> End
    requires { Sized state.now × Fits (state_in state.now) }
    ensures { Holds state.now result }
{
    let a = take(state, 0);
    let b = take(state, 1);
    let c = take(state, 2);
    let d = take(state, 3);
    let lanes = [a, b, c, d];
    let memory = memory_of(state);
    let locks = locks_of(state);
    End {
        extent: Extent {
            lanes: word_at(state, SHARED, COUNTS, LANES),
            locations: word_at(state, SHARED, COUNTS, LOCATIONS),
            locks: word_at(state, SHARED, COUNTS, LOCKS),
        },
        lanes,
        memory,
        locks,
    }
}

// Whether the answer is finished; that of a refused run is not.
pub(crate) fn answer_finished(x: Course, state: &State) -> bool
    requires { Judged x state.now }
    ensures { (s : List ℕ) (m : Machine) (mvs : List Move) (rows : List ℕ) → Stands s m mvs rows x
        state.now
        → result ≡ (answer_by m s mvs).finished }
{
    if x.refusal.is_some() {
        return false;
    }
    finished(state, &x.count)
}

pub fn finish(x: Course, state: &State) -> Ran
    requires { Judged x state.now }
    ensures { (s : List ℕ) (m : Machine) (mvs : List Move) (rows : List ℕ) → Stands s m mvs rows x
        state.now
        → Answers result (answer_by m s mvs) }
{
    let finished = answer_finished(x, state);
    let end = end_of(state);
    Ran {
        refusal: x.refusal,
        finished,
        done: x.done,
        waited: x.waited,
        end,
    }
}
