//! The lines of a sheet.
ghost use Rattle.std.specs.Prelude.{◌≡◌, ◌+◌, ◌-◌, ◌≤◌, length};
ghost use Rattle.std.specs.Iterator.{at_most};
ghost use Rattle.sheet.specs.Reading.{fault};
ghost use Rattle.sheet.specs.Steps.{NextLine};

use crate::class::Class;
use crate::fault::{Cause, Fault};
use crate::lex::count_before;
use crate::line::Line;

/// The lines of a sheet that are left: the number of the next one and where it begins; at the end or past it if there is none.
#[derive(Drop)]
pub(crate) struct Lines<'a> {
    pub(crate) sheet: &'a [u8],
    pub(crate) number: usize,
    pub(crate) at: usize,
    ghost counted: { number ≤ at + 1 },
}

impl<'a> Lines<'a> {
    /// All lines of a sheet.
    pub(crate) fn new(sheet: &'a [u8]) -> Lines<'a>
        ensures { (result.sheet.now ≡ sheet.now) × (result.number ≡ 1) × (result.at ≡ 0) }
    {
        Lines {
            sheet,
            number: 1,
            at: 0,
        }
    }

    /// The fault of a sheet that ends before the next line.
    pub(crate) fn missing(&self, cause: Cause) -> Fault
        ensures { result ≡ fault self.now.number (length self.now.sheet.now) cause }
    {
        Fault {
            line: self.number,
            place: self.sheet.len(),
            cause,
        }
    }
}

impl<'a> Iterator for Lines<'a> {
    type Item = Line<'a>;

    ghost remaining = { λ s. at_most (length s.sheet.now - s.at) };

    ghost next_gives = { λ s r t. (t.sheet.now ≡ s.sheet.now) × NextLine s.sheet.now s.number s.at t.number t.at r };

    fn next(&mut self) -> Option<Line<'a>> {
        if self.at >= self.sheet.len() {
            return None;
        }
        let start = self.at;
        let end = start + count_before(&self.sheet[start..], Class::Feed);
        let line = Line {
            sheet: self.sheet,
            number: self.number,
            start,
            end,
        };
        self.at = end + 1;
        self.number += 1;
        Some(line)
    }
}
