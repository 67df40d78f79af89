// The paper's number of a refusal, and the record that it names.
ghost use Rattle.std.specs.Prelude.{◌≡◌};
ghost use Rattle.file_verdict.specs.Verdict.{number_of, record_of};

use crate::refusal::Refusal;

// The paper's number of a refusal.
pub fn number_of(refusal: Refusal) -> usize
    ensures { result ≡ number_of refusal }
{
    match refusal {
        Refusal::TruncatedHeader => 1,
        Refusal::BadHeader => 2,
        Refusal::BadLength => 3,
        Refusal::BadRecord(_) => 4,
        Refusal::BadLinkage(_) => 5,
        Refusal::ChainTooLong(_) => 6,
        Refusal::BadTarget(_) => 7,
        Refusal::LockFault(_) => 8,
        Refusal::ShortBuffer => 9,
        Refusal::IllegalMove => 10,
        Refusal::ReleaseNotHeld(_) => 11,
        Refusal::LockOrder(_) => 12,
    }
}

// The record that a refusal names, or 0.
pub fn record_of(refusal: Refusal) -> usize
    ensures { result ≡ record_of refusal }
{
    match refusal {
        Refusal::BadRecord(r) => r,
        Refusal::BadLinkage(r) => r,
        Refusal::ChainTooLong(r) => r,
        Refusal::BadTarget(r) => r,
        Refusal::LockFault(r) => r,
        Refusal::ReleaseNotHeld(r) => r,
        Refusal::LockOrder(r) => r,
        Refusal::TruncatedHeader => 0,
        Refusal::BadHeader => 0,
        Refusal::BadLength => 0,
        Refusal::ShortBuffer => 0,
        Refusal::IllegalMove => 0,
    }
}
