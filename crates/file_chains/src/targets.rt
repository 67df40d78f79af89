// Refusals 6 and 7 from the order of the records and their places in it.
ghost use Rattle.std.specs.Prelude.{◌≡◌, List, ℕ, ◌+◌, ◌*◌, ◌≤◌, length};
ghost use Rattle.file_format.specs.Fields.{record_count};
ghost use Rattle.file_format.specs.Rules.{bad_record};
ghost use Rattle.file_format.specs.Structured.{Fielded};
ghost use Rattle.file_format.specs.Named.{named};
ghost use Rattle.file_format.specs.Linkage.{chain_too_long};
ghost use Rattle.file_format.specs.Targets.{unreachable_target, bad_target};
ghost use Rattle.file_chains.specs.Ordered.{Ordered};
ghost use Rattle.file_chains.specs.Reach.{end_of, reached};

use file_format::fields::{whole_word, word_at};

// The 65th record of the first lane of the file that has one.
pub fn too_long(s: &[u8], order: &[u16], ends: &[usize; 4]) -> Option<usize>
    requires { (place : List ℕ) × Ordered s.now order.now place ends.now }
    ensures { result ≡ named (chain_too_long s.now) }
{
    let mut from = 0;
    for &end in ends {
        if from + 64 < end {
            return Some(usize::from(order[from + 64]));
        }
        from = end;
    }
    None
}

// Where the lane of place j ends: the first end that is not before j. The ends are values to choose from, since a jump
// on a record's lane could not be predicted.
fn end_of(ends: &[usize; 4], j: usize) -> usize
    ensures { result ≡ end_of ends.now j }
{
    let [a, b, c, d] = *ends;
    if j <= a {
        a
    } else if j <= b {
        b
    } else if j <= c {
        c
    } else {
        d
    }
}

// Whether place z comes after place j in the lane of place j.
fn reaches(ends: &[usize; 4], j: usize, z: usize) -> bool
    ensures { result ≡ reached ends.now j z }
{
    j < z && z <= end_of(ends, j)
}

// The target of record i is neither zero nor later in its lane.
fn strays(s: &[u8], place: &[u16], ends: &[usize; 4], i: usize) -> bool
    requires s_bound { (record_count s.now ≤ 256) × (bad_record s.now ≡ 0) × (1 ≤ i) × (i ≤ record_count s.now)
        × (16 + 12 * i ≤ length s.now) }
    requires s_value { (chain_too_long s.now ≡ 0) × ((order : List ℕ) × Ordered s.now order place.now ends.now) }
    ensures { result ≡ unreachable_target s.now i }
{
    let x = whole_word(s, 4 + 12 * i + 8);
    x != 0 && !reaches(ends, usize::from(place[i]), usize::from(place[x]))
}

// The lowest SKIP whose target is neither zero nor later in its lane.
pub fn bad_target(s: &[u8], place: &[u16], ends: &[usize; 4]) -> Option<usize>
    requires fielded { Fielded s.now }
    requires s_value { (chain_too_long s.now ≡ 0) × ((order : List ℕ) × Ordered s.now order place.now ends.now) }
    ensures { result ≡ named (bad_target s.now) }
{
    let n = usize::from(word_at(s, 6));
    // a `for`: with `find` the proof did not close, since it learns too little of the calls that returned `false`
    for i in 1..n + 1 {
        if strays(s, place, ends, i) {
            return Some(i);
        }
    }
    None
}
