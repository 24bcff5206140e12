//! What the tasks of a sheet are called.
ghost use Rattle.std.specs.Prelude.{◌≡◌, option_map, slice_get};
ghost use Rattle.sheet_planner.specs.Names.{called, own_name, text_of};

use sheet::{Entry, Head};
use showing::TaskNames;
use std::{fmt, str};

/// A sheet that was read: its bytes, its head and its tasks.
#[derive(Clone, Copy)]
pub(crate) struct Sheet<'a> {
    pub bytes: &'a [u8],
    pub head: Head,
    pub tasks: &'a [Entry],
}

/// Some bytes as text, if they are that.
fn text(bytes: &[u8]) -> Option<&str>
    ensures { option_map (λ text. text.now) result ≡ text_of bytes.now }
{
    str::from_utf8(bytes).ok()
}

impl<'a> Sheet<'a> {
    /// The name of a task, if it is one of the sheet.
    fn name(&self, task: usize) -> Option<&'a str>
        ensures { option_map (λ name. name.now) result ≡ own_name self.now.bytes.now (slice_get self.now.tasks.now task) }
    {
        let entry = self.tasks.get(task)?;
        text(entry.name(self.bytes))
    }
}

impl<'a> TaskNames for Sheet<'a> {
    ghost name = { λ sheet task. called (own_name sheet.bytes.now (slice_get sheet.tasks.now task)) task };

    fn write_name<W: fmt::Write>(&self, f: &mut fmt::Formatter<W>, task: usize) -> fmt::Result {
        match self.name(task) {
            Some(name) => write!(f, "{name}"),
            None => write!(f, "idle task {task}"),
        }
    }
}
