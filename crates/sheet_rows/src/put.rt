// Writing bytes in place, numbers little-endian. Each `put_` that answers with a position needs room, and answers with
// the position behind what it wrote; a half of a sheet's header is not written where it does not fit.
ghost use Rattle.std.specs.Prelude.{◌≡◌, [], ◌∷◌, ◌++◌, ◌+◌, ◌≤◌, length};
ghost use Rattle.std.proofs.lemmas.List.Edits.{sets};
ghost use Rattle.sheet_format.specs.Bytes.{word_bytes, quad_bytes, row};
ghost use Rattle.sheet_format.specs.Put.{Puts, laid};
ghost use Rattle.sheet_rows.specs.Eight.{eight_in};

use crate::number::low;

pub fn put_four(out: &mut [u8], at: usize, a: u8, b: u8, c: u8, d: u8) -> usize
    requires { at + 4 ≤ length out.old }
    ensures { Puts out.old at (a ∷ b ∷ c ∷ d ∷ []) out.new result }
{
    out[at] = a;
    out[at + 1] = b;
    out[at + 2] = c;
    out[at + 3] = d;
    at + 4
}

// Two numbers of 16 bits.
pub fn put_words(out: &mut [u8], at: usize, a: usize, b: usize) -> usize
    requires { at + 4 ≤ length out.old }
    ensures { Puts out.old at (word_bytes a ++ word_bytes b) out.new result }
{
    put_four(out, at, low(a), low(a / 256), low(b), low(b / 256))
}

// A number of 32 bits.
pub fn put_quad(out: &mut [u8], at: usize, n: usize) -> usize
    requires { at + 4 ≤ length out.old }
    ensures { Puts out.old at (quad_bytes n) out.new result }
{
    put_words(out, at, n, n / 65536)
}

// Eight bytes from i on, copied. All are read before the first is written: so they are one store.
pub fn copy_eight(out: &mut [u8], at: usize, s: &[u8], i: usize)
    requires { (at + 8 ≤ length out.old) × (i + 8 ≤ length s.now) }
    ensures { out.new ≡ sets out.old at (eight_in s.now i) }
{
    let e = s[i + 4];
    let f = s[i + 5];
    let g = s[i + 6];
    let h = s[i + 7];
    let next = put_four(out, at, s[i], s[i + 1], s[i + 2], s[i + 3]);
    put_four(out, next, e, f, g, h);
}

// An instruction: operation, a, b, zero and the four bytes of c.
pub fn store_row(out: &mut [u8], at: usize, o: u8, a: u8, b: u8, c: u32) -> usize
    requires { at + 8 ≤ length out.old }
    ensures { Puts out.old at (row o a b c) out.new result }
{
    let next = put_four(out, at, o, a, b, 0);
    put_quad(out, next, c as usize)
}

// The first half of the header: T, L, K, level, mask, two zero bytes.
pub fn put_first(out: &mut [u8], t: u8, ls: u8, ks: u8, level: u8, mask: u16)
    ensures { out.new ≡ laid out.old 0
        (t ∷ ls ∷ ks ∷ level ∷ word_bytes mask ++ 0 ∷ 0 ∷ []) }
{
    if 8 <= out.len() {
        let next = put_four(out, 0, t, ls, ks, level);
        put_words(out, next, usize::from(mask), 0);
    }
}

// The second half: four instruction counts.
pub fn put_counts(out: &mut [u8], a: usize, b: usize, c: usize, d: usize)
    ensures { out.new ≡ laid out.old 8
        (word_bytes a ++ (word_bytes b ++ (word_bytes c ++ (word_bytes d ++ [])))) }
{
    if 16 <= out.len() {
        let next = put_words(out, 8, a, b);
        put_words(out, next, c, d);
    }
}
