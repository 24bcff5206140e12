//! Why a sheet is refused, and where.
ghost use Rattle.std.specs.Prelude.{◌≡◌, Some};
ghost use Rattle.sheet.specs.Causes.{cause_row, opening_line, opening_fault, printed};

use packing::{OpeningRefusal, Refusal, SHEET_TASKS};
use std::convert::From;
use std::fmt;

/// Why a sheet is refused.
#[derive(Clone, Copy)]
pub enum Cause {
    /// empty, too long, or the last byte is no line feed
    Bounds,
    /// the first line is not the mark and its version
    Mark,
    /// a wrong first word or number of fields, or a line of the head is missing
    Shape,
    /// a number, name or period that is not of its form
    Field,
    /// a name that an earlier task has
    Repeated,
    /// no task, or one too many
    Tasks,
    /// the sheet reads, but its opening is refused
    Opening(OpeningRefusal),
}

/// Where a sheet is refused, and why. Lines count from 1 and bytes from 0; line 0 is no single line.
#[derive(Clone, Copy)]
pub struct Fault {
    pub line: usize,
    pub place: usize,
    pub cause: Cause,
}

impl Cause {
    /// The number of its row in the table of refusals.
    pub fn number(self) -> u8
        ensures { result ≡ (cause_row self).number }
    {
        match self {
            Cause::Bounds => 51,
            Cause::Mark => 52,
            Cause::Shape => 53,
            Cause::Field => 54,
            Cause::Repeated => 55,
            Cause::Tasks => 56,
            Cause::Opening(refusal) => refusal.number(),
        }
    }

    /// The task that it names, if it names one.
    pub fn task(self) -> Option<usize>
        ensures { result ≡ (cause_row self).task }
    {
        match self {
            Cause::Opening(refusal) => refusal.task(),
            _ => None,
        }
    }
}

impl Fault {
    /// The number of its cause.
    pub fn number(self) -> u8
        ensures { result ≡ (cause_row self.cause).number }
    {
        self.cause.number()
    }
}

/// The line of a sheet for which an opening is refused; 0 where it is no single line.
fn opening_line(refusal: OpeningRefusal) -> usize
    ensures { result ≡ opening_line refusal }
{
    match refusal {
        OpeningRefusal::Load(Refusal::BadCores) => 2,
        OpeningRefusal::Load(Refusal::BadUnit) => 3,
        OpeningRefusal::BadFrames => 4,
        OpeningRefusal::Load(Refusal::BadTaskCount) => 0,
        OpeningRefusal::Load(Refusal::BadRate(task)) => {
            if task < SHEET_TASKS { task + 5 } else { 0 }
        }
        OpeningRefusal::Load(Refusal::Overload) => 0,
    }
}

/// The fault of a sheet that reads, and whose opening is refused; so `?` takes the refusal on.
impl From<OpeningRefusal> for Fault {
    ghost from_gives = { λ e f. f ≡ opening_fault e };

    fn from(refusal: OpeningRefusal) -> Fault {
        Fault {
            line: opening_line(refusal),
            place: 0,
            cause: Cause::Opening(refusal),
        }
    }
}

/// Its number, its line and its place.
impl fmt::Display for Fault {
    ghost output = { λ fault. Some (printed fault) };

    fn fmt<W: fmt::Write>(&self, f: &mut fmt::Formatter<W>) -> fmt::Result {
        write!(f, "no,{},{},{}", self.number(), self.line, self.place)
    }
}
