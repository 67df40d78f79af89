// The refusals of the paper's table, each with the record that it names, and the words for one.
use crate::number::{number_of, record_of};
use std::fmt;

// 1 to 8 and 12 are of a kernel file, 9 is of a buffer that is lent for an answer, 10 of a schedule, 11 of a run.
#[derive(Clone, Copy, Debug, PartialEq, Eq)]
pub enum Refusal {
    TruncatedHeader,
    BadHeader,
    BadLength,
    BadRecord(usize),
    BadLinkage(usize),
    ChainTooLong(usize),
    BadTarget(usize),
    LockFault(usize),
    ShortBuffer,
    IllegalMove,
    ReleaseNotHeld(usize),
    LockOrder(usize),
}

impl fmt::Display for Refusal {
    fn fmt<W: fmt::Write>(&self, f: &mut fmt::Formatter<W>) -> fmt::Result {
        write!(
            f,
            "refused {} record {}",
            number_of(*self),
            record_of(*self)
        )
    }
}
