// The rule of a header, and the length of a file (refusals 2 and 3).
ghost use Rattle.std.specs.Prelude.{◌≡◌, not, ◌+◌, ◌*◌, ◌<◌, ◌^◌, length, ltb, eqb};
ghost use Rattle.file_format.specs.Fields.{record_count};
ghost use Rattle.file_format.specs.Rules.{head_rule, header_rule};

use file_format::fields::{byte_at, head_of, word_at};

// The length of the file is not that of its records.
pub fn bad_length(s: &[u8]) -> bool
    ensures { result ≡ not (eqb (length s.now) (16 + 12 * record_count s.now)) }
{
    s.len() != 16 + 12 * usize::from(word_at(s, 6))
}

// The mask has no bit from location ls up.
fn mask_rule(mask: u16, ls: u8) -> bool
    ensures { result ≡ ltb mask (2 ^ ls) }
{
    ls >= 16 || mask < 1 << ls
}

// The head of lane t is at most the record count, and zero from lane T up.
#[tactic(auto, unfolding(file_format::specs::Rules::head_rule))]
fn head_rule(s: &[u8], t: usize) -> bool
    requires { t < 4 }
    ensures { result ≡ head_rule s.now t }
{
    let lanes = usize::from(byte_at(s, 0));
    let most = if t < lanes { word_at(s, 6) } else { 0 };
    head_of(s, t) <= usize::from(most)
}

// The rule of the header.
#[tactic(auto, unfolding(file_format::specs::Rules::header_rule))]
pub fn header_rule(s: &[u8]) -> bool
    ensures { result ≡ header_rule s.now }
{
    let ts = byte_at(s, 0);
    let ls = byte_at(s, 1);
    1 <= ts
        && ts <= 4
        && 1 <= ls
        && ls <= 16
        && byte_at(s, 2) <= 4
        && byte_at(s, 3) == 0
        && mask_rule(word_at(s, 4), ls)
        && word_at(s, 6) <= 256
        && head_rule(s, 0)
        && head_rule(s, 1)
        && head_rule(s, 2)
        && head_rule(s, 3)
}
