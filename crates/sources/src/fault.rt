ghost use Rattle.std.specs.Prelude.{◌≡◌, Some};
ghost use Rattle.sources.specs.Faults.{fault_for, at_line, located as located_of};
ghost use Rattle.sources.specs.Shown.{fault_text, number_fault_text, refusal_text};

use crate::reason::Reason;
use std::error::Error;
use std::fmt;
use std::fmt::{Display, Formatter};

/// What is wrong with a text that should be a number.
#[derive(Clone, Copy, PartialEq, Eq, Debug)]
pub enum NumberFault {
    /// It has no digit, or a character that is none, or its value is out of the type's range.
    Unreadable,
}

/// What a kind finds wrong, with the number of the field that it judged, or 0, as in a refusal.
#[derive(Clone, Copy, PartialEq, Eq, Debug)]
pub struct Fault {
    pub reason: Reason,
    pub field: u32,
}

/// A fault with the number of its line, or 0. It is flat, and 0 stands for none, as the rules number lines and fields
/// from 1 on and C is handed its figures side by side.
#[derive(Clone, Copy, PartialEq, Eq, Debug)]
pub struct Refusal {
    pub reason: Reason,
    pub line: u32,
    pub field: u32,
}

impl Display for NumberFault {
    ghost output = { λ f. Some (number_fault_text f) };

    fn fmt<W: fmt::Write>(&self, f: &mut Formatter<W>) -> fmt::Result {
        match self {
            NumberFault::Unreadable => f.write_str("not a number, or out of range"),
        }
    }
}

impl Error for NumberFault {}

impl From<NumberFault> for Fault {
    ghost from_gives = { λ f r. r ≡ fault_for f };

    fn from(_fault: NumberFault) -> Fault {
        Fault::new(Reason::Figure)
    }
}

impl Fault {
    /// A fault that is of no field.
    pub fn new(reason: Reason) -> Fault
        ensures { result ≡ Rattle.sources.specs.Faults.fault reason }
    {
        Fault { reason, field: 0 }
    }

    // The refusal that it is on a line.
    fn located(self, line: u32) -> Refusal
        ensures { result ≡ located_of line self }
    {
        Refusal {
            reason: self.reason,
            line,
            field: self.field,
        }
    }
}

// As a refusal of no line.
impl Display for Fault {
    ghost output = { λ f. Some (fault_text f) };

    fn fmt<W: fmt::Write>(&self, f: &mut Formatter<W>) -> fmt::Result {
        write!(f, "{}", self.located(0))
    }
}

impl Error for Fault {}

impl Refusal {
    /// A refusal that is of no field.
    pub fn new(reason: Reason, line: u32) -> Refusal
        ensures { result ≡ Rattle.sources.specs.Faults.refused reason line }
    {
        Refusal {
            reason,
            line,
            field: 0,
        }
    }
}

// `refused 11 absent line 51 field 39`, without the line and the field that it is not of.
impl Display for Refusal {
    ghost output = { λ r. Some (refusal_text r) };

    fn fmt<W: fmt::Write>(&self, f: &mut Formatter<W>) -> fmt::Result {
        let Refusal {
            reason,
            line,
            field,
        } = *self;
        write!(f, "refused {} {}", reason.number(), reason.word())?;
        if line > 0 {
            write!(f, " line {line}")?;
        }
        if field > 0 {
            write!(f, " field {field}")?;
        }
        Ok(())
    }
}

impl Error for Refusal {}

/// A fault gains the number of its line.
pub fn at_line<T>(r: Result<T, Fault>, line: u32) -> Result<T, Refusal>
    ensures { result ≡ at_line line r }
{
    r.map_err(|f| f.located(line))
}
