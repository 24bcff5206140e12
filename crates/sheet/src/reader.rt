//! Reads a sheet, line by line.
ghost use Rattle.std.specs.Prelude.{◌≡◌, ◌+◌, [], OnOk};
ghost use Rattle.sheet.specs.Parts.{lines as lines_of};
ghost use Rattle.sheet.specs.Reading.{after_mark, in_bounds, tasks_from, head_at, all_lines, reading, answer, table_of};
ghost use Rattle.sheet.specs.Faults.{Told};
ghost use Rattle.sheet.specs.Left.{left, seen, items_of, content_of};
ghost use Rattle.sheet.specs.Written.{Returned};

use crate::fault::{Cause, Fault};
use crate::limits::LONGEST;
use crate::lines::Lines;
use crate::table::{Entry, Head};
use arrayvec::ArrayVec;
use packing::SHEET_TASKS;

/// What a sheet holds.
#[derive(Drop)]
struct Sheet {
    head: Head,
    tasks: ArrayVec<Entry, SHEET_TASKS>,
}

/// The number of the head's next line, which begins with `word`.
fn head_number(lines: &mut Lines, word: &[u8]) -> Result<u16, Fault>
    ensures sheet { lines.new.sheet.now ≡ lines.old.sheet.now }
    ensures number { OnOk result (lines.new.number ≡ lines.old.number + 1) }
    ensures value { seen lines.new result ≡ head_at lines.old.sheet.now word.now lines.old.number lines.old.at (left lines.old) }
{
    let line = lines.next().ok_or(lines.missing(Cause::Shape))?;
    line.head_number(word)
}

/// The tasks of the lines that are left.
fn read_tasks(lines: Lines) -> Result<ArrayVec<Entry, SHEET_TASKS>, Fault>
    requires { lines.number ≡ 5 }
    ensures { items_of result ≡ tasks_from lines.entry.sheet.now [] 5 lines.entry.at (left lines.entry) }
{
    let none = lines.missing(Cause::Tasks);
    let mut tasks = ArrayVec::new();
    for line in lines {
        if tasks.is_full() {
            return Err(line.fault(line.start, Cause::Tasks));
        }
        let task = line.new_task(&tasks)?;
        tasks.push(task);
    }
    if tasks.is_empty() {
        Err(none)
    } else {
        Ok(tasks)
    }
}

/// The head and the tasks, from the lines after the first.
fn read_rest(mut lines: Lines) -> Result<Sheet, Fault>
    requires { lines.number ≡ 2 }
    ensures { content_of result ≡ after_mark lines.entry.sheet.now lines.entry.at (left lines.entry) }
{
    let cores = head_number(&mut lines, b"cores")?;
    let unit = head_number(&mut lines, b"unit")?;
    let frames = head_number(&mut lines, b"frames")?;
    let tasks = read_tasks(lines)?;
    let head = Head {
        cores,
        unit,
        frames,
        tasks: tasks.len(),
    };
    Ok(Sheet { head, tasks })
}

/// The head and the tasks, from all lines.
fn read_lines(sheet: &[u8]) -> Result<Sheet, Fault>
    ensures { content_of result ≡ all_lines sheet.now (lines_of sheet.now) }
{
    let mut lines = Lines::new(sheet);
    match lines.next() {
        Some(first) if first.text() == b"BLS,1".as_slice() => read_rest(lines),
        _ => Err(Fault {
            line: 1,
            place: 0,
            cause: Cause::Mark,
        }),
    }
}

/// Whether the sheet is neither empty nor too long, and ends with a line feed.
fn fits(sheet: &[u8]) -> bool
    ensures { result ≡ in_bounds sheet.now }
{
    sheet.len() <= LONGEST && sheet.last() == Some(&b'\n')
}

/// Reads a sheet into the table: its tasks in order, then blank entries. When it is refused the table is left blank.
pub fn read(sheet: &[u8], table: &mut [Entry; SHEET_TASKS]) -> Result<Head, Fault>
    ensures told { Told sheet.now table.new result }
    ensures answer { result ≡ answer (reading sheet.now) }
    ensures table { table.new ≡ table_of (reading sheet.now) }
    ensures returned { Returned sheet.now table.new result }
{
    *table = [Entry::BLANK; SHEET_TASKS];
    if !fits(sheet) {
        return Err(Fault {
            line: 0,
            place: 0,
            cause: Cause::Bounds,
        });
    }
    let Sheet { head, tasks } = read_lines(sheet)?;
    table[..tasks.len()].copy_from_slice(&tasks);
    Ok(head)
}
