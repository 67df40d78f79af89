// The rule of a record (refusal 4).
ghost use Rattle.std.specs.Prelude.{◌≡◌, ◌+◌, ◌*◌, length};
ghost use Rattle.file_format.specs.Fields.{record_count};
ghost use Rattle.file_format.specs.Named.{named};
ghost use Rattle.file_format.specs.Rules.{bad_record};

use crate::limits::{record_rule, rows_of};

// The lowest record that breaks its rule. Where it is inlined behind the tests of the header, the compiler takes its
// loop for one that is rarely run, and does not align it.
#[inline(never)]
pub fn bad_record(s: &[u8]) -> Option<usize>
    requires { length s.now ≡ 16 + 12 * record_count s.now }
    ensures { result ≡ named (bad_record s.now) }
{
    let rows = rows_of(s);
    // a `for`: with `find` the proof did not close, since it learns too little of the calls that returned `false`
    for i in 1..rows.count + 1 {
        if !record_rule(s, i, &rows) {
            return Some(i);
        }
    }
    None
}
