// What C is given of an answer.
ghost use Rattle.std.specs.Prelude.{◌≡◌, ◌<◌, ◌^◌};
ghost use Rattle.lanes_answers.specs.Interface.{Small, packed, packed_answer};

use file_verdict::number::{number_of, record_of};
use sheet_format::WriteResult;

// The answer as one number: the bytes written, or number × 2^32 + record.
pub fn packed(answer: WriteResult) -> u64
    requires { Small answer }
    ensures { result ≡ packed_answer answer }
{
    match answer {
        Ok(n) => n as u64,
        Err(refusal) => packed_refusal(number_of(refusal), record_of(refusal)),
    }
}

// A refusal of whatever number and record.
pub fn packed_refusal(number: usize, rec: usize) -> u64
    requires { (number < 2 ^ 32) × (rec < 2 ^ 32) }
    ensures { result ≡ packed number rec }
{
    number as u64 * 4294967296 + rec as u64
}
