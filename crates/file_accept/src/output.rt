// The chains of a kernel file, written into an output buffer of whatever length.
ghost use Rattle.std.specs.Prelude.{◌≡◌, ◌≤◌};
ghost use Rattle.file_verdict.specs.Verdict.{verdict};
ghost use Rattle.sheet_format.specs.declared.Level.TheVariants.{Level0};
ghost use Rattle.sheet_format.specs.Bytes.{lower_by};
ghost use Rattle.file_accept.specs.Size.{size_in};

use crate::accept::accept;
use file_verdict::refusal::Refusal;
use sheet_format::WriteResult;
use sheet_rows::parts::parts_of;

// How many bytes the rows take that begin with their header.
fn size_of(rows: &[u8]) -> usize
    requires { size_in rows.now ≤ 2064 }
    ensures { result ≡ size_in rows.now }
{
    let parts = parts_of(rows);
    let from = parts.from;
    let count = parts.count;
    from[3] + 8 * count[3]
}

// The chains at the front of `out`; a refusal, 9 for a buffer that is too short, leaves `out` as it was.
pub fn chain_file(file: &[u8], out: &mut [u8]) -> WriteResult
    ensures { (result, out.new) ≡ lower_by Level0 (verdict file.now) out.old }
{
    let mut rows = [0u8; 2064];
    accept(file, &mut rows)?;
    let size = size_of(&rows);
    if out.len() < size {
        return Err(Refusal::ShortBuffer);
    }
    out[..size].copy_from_slice(&rows[..size]);
    Ok(size)
}
