// A text laid at the front of a buffer that it fits.
ghost use Rattle.std.specs.Prelude.{◌≡◌, List, ℕ};
ghost use Rattle.sheet_format.specs.Bytes.{write_into};
ghost use Rattle.text_listing.specs.Lays.{Lays};

use file_verdict::refusal::Refusal;
use sheet_format::WriteResult;

// The text that `lay` lays, at the front of `out`; 9, and `out` as it was, where it does not fit. It is measured first,
// by laying it into a buffer that it does not fit.
pub(crate) fn list<F: Fn(&mut [u8]) -> usize>(lay: F, out: &mut [u8]) -> WriteResult
    requires { F.IsAlwaysCallable lay }
    ensures { (text : List ℕ) → Lays (F.post lay) text → (result, out.new) ≡ write_into text out.old }
{
    let mut none = [0u8; 1];
    let size = lay(&mut none);
    if out.len() < size {
        return Err(Refusal::ShortBuffer);
    }
    let end = lay(out);
    Ok(end)
}
