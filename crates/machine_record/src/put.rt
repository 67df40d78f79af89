// Writing a test and a row of words.
ghost use Rattle.std.specs.Prelude.{◌≡◌, ◌+◌, ◌*◌, ◌≤◌, length, get_or};
ghost use Rattle.sheet_format.specs.Bytes.{quad_bytes};
ghost use Rattle.sheet_format.specs.Put.{Puts, in_turn};
ghost use Rattle.machine_record.specs.Lanes.{flag};

use sheet_rows::number::wide;
use sheet_rows::put::put_quad;

// A test as a byte.
pub fn flag(b: bool) -> u8
    ensures { result ≡ flag b }
{
    u8::from(b)
}

// Word i of a row; 0 past its end.
pub fn word_at(words: &[u32], i: usize) -> usize
    ensures { result ≡ get_or words.now i 0 }
{
    wide(words.get(i).copied().unwrap_or(0))
}

// The first n words of a row, each in 32 bits; 0 past its end.
pub fn put_table(out: &mut [u8], at: usize, words: &[u32], n: usize) -> usize
    requires { at + 4 * n ≤ length out.old }
    ensures { Puts out.old at
        (in_turn (λ i. quad_bytes (get_or words.now i 0)) n) out.new result }
{
    let mut next = at;
    for i in 0..n {
        next = put_quad(out, next, word_at(words, i));
    }
    next
}
