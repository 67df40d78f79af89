// The lanes of a file walked one after the other: the order of its records, and each record's place in it (refusal 5).
ghost use Rattle.std.specs.Prelude.{◌≡◌, ◌≢◌, ℕ, false, not, ◌≤◌, ◌<◌, length, get_or, replicate, MatchResult};
ghost use Rattle.file_format.specs.Fields.{record_count};
ghost use Rattle.file_format.specs.Rules.{bad_record};
ghost use Rattle.file_format.specs.Structured.{Fielded};
ghost use Rattle.file_format.specs.Named.{named};
ghost use Rattle.file_format.specs.Search.{lowest};
ghost use Rattle.file_format.specs.Linkage.{bad_linkage};
ghost use Rattle.file_chains.specs.Ordered.{Ordered};
ghost use Rattle.file_chains.specs.Walks.{met, Filling, LaneWalked};

use file_format::fields::{head_of, next_of, word_at};

// Walks the chain of record h, and puts each record behind the k that the order has. How many records the order has
// then, or the record that the walk met a second time.
fn walk(s: &[u8], h: usize, k: usize, order: &mut [u16], place: &mut [u16]) -> Result<usize, usize>
    requires { (h ≤ record_count s.now) × (record_count s.now ≤ 256) × (bad_record s.now ≡ 0)
        × Filling s.now order.old place.old k }
    ensures { MatchResult result
        (λ n. LaneWalked s.now h k order.old place.old 0 n order.new place.new)
        (λ r. (r ≢ 0) × ((n : ℕ) × LaneWalked s.now h k order.old place.old r n order.new place.new)) }
{
    let mut r = h;
    let mut n = k;
    while r != 0 {
        if place[r] != 0 {
            return Err(r);
        }
        order[n] = r as u16;
        n += 1;
        place[r] = n as u16;
        r = next_of(s, r);
    }
    Ok(n)
}

// The lowest of the n records that has no place.
fn left_over(n: usize, place: &[u16]) -> Option<usize>
    requires { (n ≤ 256) × (n < length place.now) }
    ensures { result ≡ named (lowest (λ i. not (get_or (met place.now) i false)) 1 n) }
{
    (1..n + 1).find(|&i| place[i] == 0)
}

// Walks the lanes: the order of the records, each record's place in it, and where each lane ends in it; or the record
// that refusal 5 names, which leaves the order and the places open.
pub fn link(s: &[u8], order: &mut [u16], place: &mut [u16]) -> Result<[usize; 4], usize>
    requires fields { Fielded s.now }
    requires room { (record_count s.now ≤ length order.old) × (record_count s.now < length place.old) }
    requires blank { place.old ≡ replicate (length place.old) 0 }
    ensures { MatchResult result
        (λ ends. (bad_linkage s.now ≡ 0) × Ordered s.now order.new place.new ends)
        (λ r. (r ≢ 0) × (r ≡ bad_linkage s.now)) }
{
    let mut ends = [0usize; 4];
    let mut k = 0;
    for t in 0..4 {
        k = walk(s, head_of(s, t), k, order, place)?;
        ends[t] = k;
    }
    let n = usize::from(word_at(s, 6));
    if k == n {
        return Ok(ends);
    }
    match left_over(n, place) {
        Some(r) => Err(r),
        None => Ok(ends),
    }
}
