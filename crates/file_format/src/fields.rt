// The fields of a kernel file, read from its bytes. Past the end of the file every byte reads as 0.
ghost use Rattle.std.specs.Prelude.{◌≡◌, ◌+◌, ◌<◌, ◌≤◌, ◌^◌, length};
ghost use Rattle.file_format.specs.Fields.{byte, word, quad, head, next};

// The byte at i.
pub fn byte_at(s: &[u8], i: usize) -> u8
    ensures { result ≡ byte s.now i }
{
    s.get(i).copied().unwrap_or(0)
}

// The 16-bit field at i.
pub fn word_at(s: &[u8], i: usize) -> u16
    ensures { (result ≡ word s.now i) × (result < 65536) }
{
    if i < s.len().saturating_sub(1) {
        u16::from(s[i]) + 256 * u16::from(s[i + 1])
    } else {
        u16::from(byte_at(s, i))
    }
}

// The 32-bit field at i.
pub fn quad_at(s: &[u8], i: usize) -> u32
    ensures { result ≡ quad s.now i }
{
    if i < s.len() {
        u32::from(word_at(s, i)) + 65536 * u32::from(word_at(s, i + 2))
    } else {
        0
    }
}

// The 16-bit field at i, both bytes of which the file has.
pub fn whole_word(s: &[u8], i: usize) -> usize
    requires { i + 2 ≤ length s.now }
    ensures { (result ≡ word s.now i) × (result < 65536) }
{
    usize::from(s[i]) + 256 * usize::from(s[i + 1])
}

// The 32-bit field at i, all bytes of which the file has.
pub fn whole_quad(s: &[u8], i: usize) -> usize
    requires { i + 4 ≤ length s.now }
    ensures { (result ≡ quad s.now i) × (result < 2 ^ 32) }
{
    whole_word(s, i) + 65536 * whole_word(s, i + 2)
}

// The first record of lane t.
pub fn head_of(s: &[u8], t: usize) -> usize
    requires { t < 4 }
    ensures { (result ≡ head s.now t) × (result < 65536) }
{
    usize::from(word_at(s, 8 + 2 * t))
}

// The record that follows record i.
pub fn next_of(s: &[u8], i: usize) -> usize
    requires { i < 65536 }
    ensures { (result ≡ next s.now i) × (result < 65536) }
{
    usize::from(word_at(s, 4 + 12 * i + 10))
}
