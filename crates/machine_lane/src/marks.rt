// The SS marks of a pending list, as the bits of a number: bit i is set where a mark stands directly behind entry i.
ghost use Rattle.std.specs.Prelude.{◌≡◌, ◌+◌, ◌*◌, ◌^◌, ◌≤◌, ◌<◌};
ghost use Rattle.machine_spec.specs.Marks.{mark_at, no_mark, after_ss, after_commit};

// All 64 marks, from their low and their high half.
pub fn whole(low: u32, high: u32) -> u64
    ensures { result ≡ low + 2 ^ 32 * high }
{
    u64::from(low) + 4294967296 * u64::from(high)
}

// Whether a mark stands directly behind entry i.
pub fn mark_at(marks: u64, i: usize) -> bool
    requires { i < 64 }
    ensures { result ≡ mark_at marks i }
{
    (marks >> i) % 2 == 1
}

// Whether no mark stands before entry n.
pub fn no_mark(n: usize, marks: u64) -> bool
    requires { n < 64 }
    ensures { result ≡ no_mark n marks }
{
    marks & ((1u64 << n) - 1) == 0
}

// The marks after an SS behind n entries.
pub fn after_ss(n: usize, marks: u64) -> u64
    requires { n ≤ 64 }
    ensures { result ≡ after_ss n marks }
{
    if n == 0 {
        return marks;
    }
    marks | (1u64 << (n - 1))
}

// The marks after the commit of an entry older than all of them.
pub fn after_commit(marks: u64) -> u64
    ensures { result ≡ after_commit marks }
{
    marks / 2
}
