// The cookbook table: which barrier an earlier access and a later one call for.
ghost use Rattle.std.specs.Prelude.{◌≡◌, MatchOption};
ghost use Rattle.std.proofs.Math.Option.{none, some};
ghost use Rattle.barrier_placement.specs.Cookbook.{cell as cell_of};

use Barrier::{LL, LS, SL, SS};

// Plain load, plain store, volatile load or LOCK, volatile store or UNLOCK.
#[derive(Clone, Copy, PartialEq, Eq, Debug)]
pub enum Class {
    PL,
    PS,
    VL,
    VS,
}

// First letter: the kind of the earlier access, load or store; second letter: that of the later one.
#[derive(Clone, Copy, PartialEq, Eq, Debug)]
pub enum Barrier {
    LL,
    LS,
    SS,
    SL,
}

// Row by the earlier access's class, column by the later one's.
const TABLE: [[Option<Barrier>; 4]; 4] = [
    [None, None, None, Some(LS)],
    [None, None, None, Some(SS)],
    [Some(LL), Some(LS), Some(LL), Some(LS)],
    [None, None, Some(SL), Some(SS)],
];

// The barrier between an earlier and a later access, if there is one.
pub fn cell(first: Class, second: Class) -> Option<Barrier>
    ensures { MatchOption result (cell_of first second ≡ none) (λ b. cell_of first second ≡ some b) }
{
    TABLE[first as usize][second as usize]
}
