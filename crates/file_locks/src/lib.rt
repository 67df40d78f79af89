// The held-set rule of the lanes (refusal 8) and the order in which they take locks (12). One pass over a lane's rows
// asks whether there is anything wrong, by one test at each row; only where there is, another finds out what.
// A set of locks is a number below 16, bit l for lock l. The ways to a position are a number of eight bits: bit l is up
// where some way holds lock l, bit 4 + l where some way does not; ways are joined by `|`, and differ where a lock has
// both bits. Codes stay numbers, 5 LOCK, 6 UNLOCK and 7 SKIP: one test of the code's byte a row, as fast as the bar
// asks.
#![tactic(auto)]

ghost use Rattle.std.specs.Prelude.{◌≡◌, List, false, ℕ, ◌+◌, ◌-◌, ◌*◌, ◌<◌, ◌≤◌, length, set, get_or, take, drop};
ghost use Rattle.std.specs.Int.Bits.{bit_or};
ghost use Rattle.file_format.specs.declared.accepted.Op.{Op};
ghost use Rattle.file_format.specs.Fields.{record_count};
ghost use Rattle.file_format.specs.Structured.{Structured};
ghost use Rattle.file_format.specs.Accepted.{program_of};
ghost use Rattle.file_format.specs.Held.{record_at};
ghost use Rattle.file_chains.specs.Ordered.{Ordered};
ghost use Rattle.file_verdict.specs.Verdict.{lock_refusal};
ghost use Rattle.sheet_format.specs.declared.Level.TheVariants.{Level0};
ghost use Rattle.sheet_format.specs.Bytes.{over, sheet_bytes};
ghost use Rattle.file_locks.specs.Sets.{lock_bit, barred, wrong_at, suspect_at, after_row};
ghost use Rattle.file_locks.specs.Lanes.{descent_here, LaneIn, Clean, PositionsOf, RecordsOf};

use file_verdict::refusal::Refusal;

// The set of the lock that the operation of this code and operand takes or frees; no lock for other codes. The test is
// made into a number: a jump on the kind of an operation could not be predicted.
fn lock_bit(code: u8, b: u8) -> u8
    ensures { result ≡ lock_bit code b }
{
    (((code == 5) | (code == 6)) as u8) << (b % 4)
}

// The locks that an operation may not name: those held for a LOCK, those not held for an UNLOCK.
fn barred(w: u8, code: u8) -> u8
    ensures { result ≡ barred w code }
{
    if code == 5 { w } else { w >> 4 }
}

// The ways w to a row differ, or its operation breaks the rule: it takes a lock that is held, or frees one that is not.
fn wrong_at(w: u8, code: u8, bit: u8) -> bool
    ensures { result ≡ wrong_at w code bit }
{
    ((w & (w >> 4)) | (barred(w, code) & bit)) != 0
}

// One of the two rules may be broken at a row: its ways differ, it takes a lock while that or a higher one is held, or
// it frees one that is not held. As numbers, the locks from that of `bit` up are 16 - bit.
fn suspect_at(w: u8, code: u8, bit: u8) -> bool
    requires { bit < 16 }
    ensures { result ≡ suspect_at w code bit }
{
    let named = if code == 5 { 16 - bit } else { bit };
    ((w & (w >> 4)) | (barred(w, code) & named)) != 0
}

// The position `at` of an operation that takes a lock, where the ways w to it hold one that is not below. As numbers,
// a set has a lock of number b or more exactly when it is at least 2^b.
fn descent_here(w: u8, code: u8, bit: u8, at: usize) -> Option<usize>
    ensures { result ≡ descent_here w code bit at }
{
    if (code == 5) & (w % 16 >= bit) {
        Some(at)
    } else {
        None
    }
}

// The ways w after an operation that takes or frees the lock of `bit`: its two bits change places.
fn after_row(w: u8, bit: u8) -> u8
    requires { bit < 16 }
    ensures { result ≡ after_row w bit }
{
    w ^ (17 * bit)
}

// A SKIP leads to position q with the ways w.
fn lead(led: &mut [u8], q: u8, w: u8)
    ensures { led.new ≡ set led.old q (bit_or (get_or led.old q 0) w) }
{
    let i = usize::from(q);
    if i < led.len() {
        led[i] |= w;
    }
}

// Something may be wrong in a lane of n rows; where the answer is no, nothing is. The way to the first row holds no
// lock; w are the ways that come from the row before, led[q] those by which SKIPs lead to position q.
fn suspicious(rows: &[u8], n: usize) -> bool
    requires { (n ≤ 64) × (8 * n ≤ length rows.now) }
    ensures { result ≡ false → (ops : List Op) → LaneIn rows.now n ops → Clean ops }
{
    let mut led = [0u8; 65];
    let mut w = 0xF0u8;
    for p in 0..n {
        let code = rows[8 * p];
        let bit = lock_bit(code, rows[8 * p + 2]);
        let here = w | led[p];
        if suspect_at(here, code, bit) {
            return true;
        }
        w = after_row(here, bit);
        if code == 7 {
            lead(&mut led, rows[8 * p + 4], w);
        }
    }
    (w | led[n]) % 16 != 0
}

// The same of the lane from `from` to `end` of the order.
fn suspicious_lane(rows: &[u8], from: usize, end: usize) -> bool
    requires { (from ≤ end) × (end ≤ 256) × (end - from ≤ 64) × (16 + 8 * end ≤ length rows.now) }
    ensures { result ≡ false → (ops : List Op) → LaneIn (drop (16 + 8 * from) rows.now) (end - from) ops
        → Clean ops }
{
    if end <= from {
        return false;
    }
    suspicious(&rows[16 + 8 * from..], end - from)
}

// What is found in a lane of n rows, by positions counted from 1: the error is where the held-set rule is first broken;
// else a LOCK that is the first to take a lock that is not above all that are held. The way to the first row holds no
// lock; w are the ways that come from the row before, led[q] those by which SKIPs lead to position q.
fn find_positions(rows: &[u8], n: usize) -> Result<Option<usize>, usize>
    requires { (n ≤ 64) × (8 * n ≤ length rows.now) }
    ensures { (ops : List Op) → LaneIn rows.now n ops → PositionsOf ops result }
{
    let mut led = [0u8; 65];
    let mut w = 0xF0u8;
    let mut descent = None;
    for p in 0..n {
        let code = rows[8 * p];
        let bit = lock_bit(code, rows[8 * p + 2]);
        let here = w | led[p];
        let place = p + 1;
        if wrong_at(here, code, bit) {
            return Err(place);
        }
        let found = descent_here(here, code, bit, place);
        descent = descent.or(found);
        w = after_row(here, bit);
        if code == 7 {
            lead(&mut led, rows[8 * p + 4], w);
        }
    }
    if (w | led[n]) % 16 != 0 {
        return Err(n + 1);
    }
    Ok(descent)
}

// The record at position x, counted from 1, of the lane of n records that begins at `from` of the order; for the end,
// beyond the last, the last; 0 for position 0, as the specification has it.
fn record_at(order: &[u16], from: usize, n: usize, x: usize) -> usize
    requires { from + n ≤ length order.now }
    ensures { result ≡ record_at (take n (drop from order.now)) x }
{
    let i = x.min(n);
    if i == 0 {
        return 0;
    }
    usize::from(order[from + i - 1])
}

// The same by records, in the lane from `from` to `end` of the order.
fn find_records(rows: &[u8], order: &[u16], from: usize, end: usize) -> Result<Option<usize>, usize>
    requires { (from ≤ end) × (end ≤ 256) × (end - from ≤ 64) × (16 + 8 * end ≤ length rows.now)
        × (end ≤ length order.now) }
    ensures { (ops : List Op) → LaneIn (drop (16 + 8 * from) rows.now) (end - from) ops
        → RecordsOf (take (end - from) (drop from order.now)) ops result }
{
    if end <= from {
        return Ok(None);
    }
    let n = end - from;
    match find_positions(&rows[16 + 8 * from..], n) {
        Err(fault) => Err(record_at(order, from, n, fault)),
        Ok(Some(descent)) => Ok(Some(record_at(order, from, n, descent))),
        Ok(None) => Ok(None),
    }
}

// The refusal of checks 8 and 12, from the chains of the file as rows: a fault of any lane comes before the order in
// which the first of them takes its locks.
fn find_refusal(s: &[u8], rows: &[u8], order: &[u16], ends: &[usize; 4]) -> Result<(), Refusal>
    requires structure { Structured s.now }
    requires order { (place : List ℕ) × Ordered s.now order.now place ends.now }
    requires chains { (own : List ℕ) × (rows.now ≡ over (sheet_bytes Level0 (program_of s.now)) own)
        × (16 + 8 * record_count s.now ≤ length own) }
    ensures { result ≡ lock_refusal (program_of s.now) }
{
    let mut from = 0;
    let mut descent = None;
    for end in ends {
        match find_records(rows, order, from, *end) {
            Err(fault) => return Err(Refusal::LockFault(fault)),
            Ok(found) => descent = descent.or(found),
        }
        from = *end;
    }
    match descent {
        Some(record) => Err(Refusal::LockOrder(record)),
        None => Ok(()),
    }
}

// The same, in one pass where nothing is wrong, and in none where the header counts no locks.
pub fn lock_refusal(s: &[u8], rows: &[u8], order: &[u16], ends: &[usize; 4]) -> Result<(), Refusal>
    requires structure { Structured s.now }
    requires order { (place : List ℕ) × Ordered s.now order.now place ends.now }
    requires chains { (own : List ℕ) × (rows.now ≡ over (sheet_bytes Level0 (program_of s.now)) own)
        × (16 + 8 * record_count s.now ≤ length own) }
    ensures { result ≡ lock_refusal (program_of s.now) }
{
    if s[2] == 0 {
        return Ok(());
    }
    let mut from = 0;
    for end in ends {
        if suspicious_lane(rows, from, *end) {
            return find_refusal(s, rows, order, ends);
        }
        from = *end;
    }
    Ok(())
}
