// The fields of a record that lies in the file, held to the limits of its operation.
ghost use Rattle.std.specs.Prelude.{◌≡◌, cond, ◌+◌, ◌*◌, ◌<◌, ◌≤◌, length, ltb};
ghost use Rattle.file_format.specs.Rules.{Limits, record_rule};

use file_format::fields::{byte_at, whole_quad, whole_word, word_at};

// What the rule of a file's records goes by: their count, and what each field stays below, in the row of its operation.
#[derive(Drop)]
pub(crate) struct Rows {
    pub(crate) count: usize,
    a: [usize; 8],
    b: [usize; 8],
    constant: [usize; 8],
    target: [usize; 8],
}

// The row of an operation; row 0, whose limits are 0, where there is no such operation.
fn row_of(op: u8) -> usize
    ensures { (result ≡ cond (ltb op 8) op 0) × (result < 8) }
{
    if op < 8 { usize::from(op) } else { 0 }
}

// The rows of a file.
pub(crate) fn rows_of(s: &[u8]) -> Rows
    ensures { Limits s.now result.count result.a result.b result.constant result.target }
{
    let ls = usize::from(byte_at(s, 1));
    let ks = usize::from(byte_at(s, 2));
    let count = usize::from(word_at(s, 6));
    Rows {
        count,
        a: [0, 8, 8, 8, 8, 1, 1, 8],
        b: [0, 1, 8, ls, ls, ks, ks, 1],
        constant: [0, 1 << 32, 1, 1, 1, 1, 1, 1],
        target: [0, 1, 1, 1, 1, 1, 1, count + 1],
    }
}

// The rule of record i, all bytes of which the file has.
pub(crate) fn record_rule(s: &[u8], i: usize, rows: &Rows) -> bool
    requires { (16 + 12 * i ≤ length s.now)
        × Limits s.now rows.now.count rows.now.a rows.now.b rows.now.constant rows.now.target }
    ensures { result ≡ record_rule s.now i }
{
    let at = 4 + 12 * i;
    let op = row_of(s[at]);
    usize::from(s[at + 1]) < rows.a[op]
        && usize::from(s[at + 2]) < rows.b[op]
        && s[at + 3] == 0
        && whole_quad(s, at + 4) < rows.constant[op]
        && whole_word(s, at + 8) < rows.target[op]
        && whole_word(s, at + 10) <= rows.count
}
