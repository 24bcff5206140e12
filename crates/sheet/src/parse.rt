//! What a line says: a number of the head, or a task.
ghost use Rattle.std.specs.Prelude.{◌≡◌, ◌+◌, length};
ghost use Rattle.sheet.specs.Parts.{fields, fields_from};
ghost use Rattle.sheet.specs.Reading.{at_field, head_line, task_line, new_task, used as used_of};
ghost use Rattle.sheet.specs.Steps.{body};

use crate::fault::{Cause, Fault};
use crate::lex::Lexer;
use crate::line::Line;
use crate::table::Entry;

/// Whether one of the entries has this name.
fn used(sheet: &[u8], entries: &[Entry], name: &[u8]) -> bool
    ensures { result ≡ used_of sheet.now entries.now name.now }
{
    entries.iter().any(|entry| entry.name(sheet) == name)
}

impl<'a> Line<'a> {
    /// Its fields, one at a time.
    fn fields(self) -> Lexer<'a>
        ensures left { fields_from result.text.now result.at ≡ fields (body self.entry) }
        ensures at { result.at ≡ self.entry.start }
    {
        Lexer::new(&self.sheet[..self.end], self.start)
    }

    /// The value of a field, or that it is not of its form.
    fn field_value(self, value: Option<u16>, place: usize) -> Result<u16, Fault>
        ensures { result ≡ at_field self.entry.number place value }
    {
        value.ok_or(self.fault(place, Cause::Field))
    }

    /// The number in a line of the head that begins with `word`.
    pub(crate) fn head_number(self, word: &[u8]) -> Result<u16, Fault>
        ensures { result ≡ head_line word.now self.entry.number self.entry.start (fields (body self.entry)) }
    {
        let wrong = self.fault(self.start, Cause::Shape);
        let mut fields = self.fields();
        let parts = (
            fields.next_field(),
            fields.next_field(),
            fields.next_field(),
        );
        let (Some(first), Some(second), None) = parts else {
            return Err(wrong);
        };
        if first.token.text() != word {
            return Err(wrong);
        }
        self.field_value(second.number(), second.token.place())
    }

    /// The entry of a task's line.
    fn task(self) -> Result<Entry, Fault>
        ensures { result ≡ task_line self.entry.number self.entry.start (fields (body self.entry)) }
    {
        let wrong = self.fault(self.start, Cause::Shape);
        let mut fields = self.fields();
        let parts = (
            fields.next_field(),
            fields.next_field(),
            fields.next_field(),
            fields.next_field(),
            fields.next_field(),
        );
        let (Some(word), Some(name), Some(rate), Some(period), None) = parts else {
            return Err(wrong);
        };
        if word.token.text() != b"task".as_slice() {
            return Err(wrong);
        }
        if !name.is_name() {
            return Err(self.fault(name.token.place(), Cause::Field));
        }
        Ok(Entry {
            place: name.token.place(),
            size: name.token.text().len(),
            rate: self.field_value(rate.number(), rate.token.place())?,
            period: self.field_value(period.period(), period.token.place())?,
        })
    }

    /// The entry of a task's line, unless an earlier entry has its name.
    pub(crate) fn new_task(self, earlier: &[Entry]) -> Result<Entry, Fault>
        ensures { result ≡ new_task self.entry.sheet.now earlier.now self.entry.number self.entry.start (fields (body self.entry)) }
    {
        let entry = self.task()?;
        if used(self.sheet, earlier, entry.name(self.sheet)) {
            return Err(self.fault(entry.place, Cause::Repeated));
        }
        Ok(entry)
    }
}
