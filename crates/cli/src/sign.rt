// Signs that a process ended while its text was read.
use crate::pulled::Ending;
use std::fmt;
use std::fmt::{Display, Formatter};

/// What a text looks like whose process may have ended.
#[derive(Clone, Copy, Debug, PartialEq, Eq)]
pub enum Sign {
    /// An smaps text without a byte.
    Unmapped,
    /// Another text without a byte.
    Empty,
    /// The text broke off, or its last line has no byte 10.
    BreaksOff,
}

impl Sign {
    /// The sign that a text bears which ends so, and which is of mappings or not.
    pub fn of(ending: Ending, maps: bool) -> Option<Sign> {
        match ending {
            Ending::Whole => None,
            Ending::Empty if maps => Some(Sign::Unmapped),
            Ending::Empty => Some(Sign::Empty),
            Ending::MidLine => Some(Sign::BreaksOff),
        }
    }
}

impl Display for Sign {
    fn fmt<W: fmt::Write>(&self, f: &mut Formatter<W>) -> fmt::Result {
        f.write_str(match self {
            Sign::Unmapped => "nothing is mapped: the process may have ended",
            Sign::Empty => "is empty: the process may have ended",
            Sign::BreaksOff => "breaks off in the middle of a line: the process may have ended",
        })
    }
}
