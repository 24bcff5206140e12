//! One line of a sheet.
ghost use Rattle.std.specs.Prelude.{◌≡◌, ◌≤◌, length, slice_range};
ghost use Rattle.sheet.specs.Reading.{fault};

use crate::fault::{Cause, Fault};

/// A line of a sheet: its number, counted from 1, where it begins, and where it ends.
#[derive(Clone, Copy)]
pub(crate) struct Line<'a> {
    pub(crate) sheet: &'a [u8],
    pub(crate) number: usize,
    pub(crate) start: usize,
    pub(crate) end: usize,
    ghost in_order: { start ≤ end },
    ghost within: { end ≤ length sheet.now },
}

impl<'a> Line<'a> {
    /// Its bytes.
    pub(crate) fn text(self) -> &'a [u8]
        ensures { result.now ≡ slice_range self.entry.sheet.now self.entry.start self.entry.end }
    {
        &self.sheet[self.start..self.end]
    }

    /// A fault of this line.
    pub(crate) fn fault(self, place: usize, cause: Cause) -> Fault
        ensures { result ≡ fault self.entry.number place cause }
    {
        Fault {
            line: self.number,
            place,
            cause,
        }
    }
}
