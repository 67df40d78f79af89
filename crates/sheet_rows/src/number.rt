// Numbers as bytes, and whether eight bytes fit.
ghost use Rattle.std.specs.Prelude.{◌≡◌, ◌+◌, ◌%◌, leb};

// The lowest byte of a number.
pub fn low(n: usize) -> u8
    ensures { result ≡ n % 256 }
{
    (n % 256) as u8
}

// A number of 32 bits, as wide as an index.
pub fn wide(x: u32) -> usize
    ensures { result ≡ x }
{
    x as usize
}

// Eight bytes from `at` on fit.
pub fn fits(len: usize, at: usize) -> bool
    ensures { result ≡ leb (at + 8) len }
{
    8 <= len && at <= len - 8
}
