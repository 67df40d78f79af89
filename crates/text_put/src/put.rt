// Bytes laid into a buffer from a position on: one byte, a text. What does not fit is dropped, and the position counts
// on all the same, so that a buffer of no bytes serves to measure.
ghost use Rattle.std.specs.Prelude.{◌≡◌, ◌+◌, ◌<◌, ◌≤◌, ◌^◌, ◌∷◌, [], length, set};
ghost use Rattle.sheet_format.specs.Put.{Puts};

// A byte, where there is room for it. A test and no `get_mut`, tried: its contract does not say what the slice ends as.
pub fn store(out: &mut [u8], at: usize, b: u8)
    ensures { out.new ≡ set out.old at b }
{
    if at < out.len() {
        out[at] = b;
    }
}

pub fn put(out: &mut [u8], at: usize, b: u8) -> usize
    requires { at < 2 ^ 62 }
    ensures { Puts out.old at (b ∷ []) out.new result }
{
    store(out, at, b);
    at + 1
}

pub fn put_text(out: &mut [u8], at: usize, text: &[u8]) -> usize
    requires { at + length text.now ≤ 2 ^ 62 }
    ensures { Puts out.old at text.now out.new result }
{
    for (i, b) in text.iter().enumerate() {
        put(out, at + i, *b);
    }
    at + text.len()
}
