// A whole schedule of text.
ghost use Rattle.std.specs.Prelude.{◌≡◌};
ghost use Rattle.text_schedule.specs.Text.{read_into};

use crate::lines::{lay_moves, malformed};
use std::error::Error;
use std::fmt;

// Why a text is no schedule: the line, counted from 1, that is not a move; or its moves do not fit.
#[derive(Clone, Copy, Debug, PartialEq, Eq)]
pub enum ScheduleError {
    Malformed(usize),
    TooLong,
}

// What a program says of it, whose buffers take 65,535 bytes.
impl fmt::Display for ScheduleError {
    fn fmt<W: fmt::Write>(&self, f: &mut fmt::Formatter<W>) -> fmt::Result {
        match self {
            ScheduleError::Malformed(line) => write!(f, "schedule line {line} is not a move"),
            ScheduleError::TooLong => write!(f, "schedule longer than 65535 bytes"),
        }
    }
}

impl Error for ScheduleError {}

// The moves at the front of `moves`, two bytes each, and how many bytes that is; an error leaves `moves` as it was.
// They are measured first, by laying them into a buffer that they need not fit.
pub fn read_schedule(text: &[u8], moves: &mut [u8]) -> Result<usize, ScheduleError>
    ensures { (result, moves.new) ≡ read_into text.now moves.old }
{
    if let Some(line) = malformed(text) {
        return Err(ScheduleError::Malformed(line));
    }
    let mut none = [0u8; 1];
    let size = lay_moves(text, &mut none);
    if moves.len() < size {
        return Err(ScheduleError::TooLong);
    }
    Ok(lay_moves(text, moves))
}
