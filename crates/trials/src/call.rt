//! A line of the table, read as a call.
ghost use Rattle.trials.specs.Reading.{Reads, ReadsUpTo, Any, fit_word, choose_word};

use run::Question;
use std::alloc::{AllocError, Global};

/// The most entries of a core list.
pub(crate) const LONGEST_LIST: usize = 20;

/// A fitting rule.
#[derive(Clone, Copy)]
pub(crate) enum Fit {
    First,
    Best,
    Worst,
}

/// A choosing rule.
#[derive(Clone, Copy)]
pub(crate) enum Choose {
    Earliest,
    Slack,
}

/// A load and its frames: so many cores, parts in one whole core, frames, and the rate of each task.
#[derive(Drop)]
pub(crate) struct Load {
    pub cores: u32,
    pub unit: u32,
    pub frames: u32,
    pub rates: Vec<u16>,
}

/// A call of a run.
#[derive(Drop)]
pub(crate) enum Call {
    Open {
        fit: Fit,
        choose: Choose,
        load: Load,
    },
    Announce {
        task: usize,
        deadline: u32,
    },
    /// a tick with a core list of so many entries
    Tick {
        entries: usize,
    },
    Ask(Question),
}

/// The number that a field writes: digits, with no leading zero unless it is 0.
fn number(field: &str) -> Option<u32>
    ensures { ReadsUpTo 4294967295 field.now result }
{
    let bytes = field.as_bytes();
    if bytes.len() > 0 && bytes[0] == b'+' {
        return None;
    }
    if bytes.len() > 1 && bytes[0] == b'0' {
        return None;
    }
    field.parse().ok()
}

/// The number that a field writes, unless it is above the highest.
fn number_up_to(most: u16, field: &str) -> Option<u16>
    ensures { ReadsUpTo most field.now result }
{
    let number = u16::try_from(number(field)?).ok()?;
    (number <= most).then_some(number)
}

/// The number of a task.
fn task(field: &str) -> Option<usize>
    ensures { ReadsUpTo 4294967295 field.now result }
{
    number(field).map(|n| n as usize)
}

fn fit_of(field: &str) -> Option<Fit>
    ensures { Reads Any fit_word field.now result }
{
    match field {
        "first" => Some(Fit::First),
        "best" => Some(Fit::Best),
        "worst" => Some(Fit::Worst),
        _ => None,
    }
}

fn choose_of(field: &str) -> Option<Choose>
    ensures { Reads Any choose_word field.now result }
{
    match field {
        "earliest" => Some(Choose::Earliest),
        "slack" => Some(Choose::Slack),
        _ => None,
    }
}

/// The rates of an opening, if each field is one.
fn rates(heap: Global, fields: &[&str]) -> Result<Option<Vec<u16>>, AllocError> {
    let mut rates = Vec::new(heap);
    for field in fields {
        let Some(rate) = number_up_to(u16::MAX, field) else {
            return Ok(None);
        };
        rates.push(rate)?;
    }
    Ok(Some(rates))
}

/// An opening by its fields.
fn opening(rules: (&str, &str), head: (&str, &str, &str), rates: Option<Vec<u16>>) -> Option<Call> {
    let load = Load {
        cores: number(head.0)?,
        unit: number(head.1)?,
        frames: number(head.2)?,
        rates: rates?,
    };
    Some(Call::Open {
        fit: fit_of(rules.0)?,
        choose: choose_of(rules.1)?,
        load,
    })
}

/// A question by its fields, the first of which asks.
fn question_of(fields: &[&str]) -> Option<Question> {
    match fields {
        ["ask", "tick"] => Some(Question::PresentTick),
        ["ask", "reductions"] => Some(Question::Reductions),
        ["ask", "jobs"] => Some(Question::Jobs),
        ["ask", "preemptions"] => Some(Question::Preemptions),
        ["ask", "left", i] => Some(Question::Left(task(i)?)),
        ["ask", "deadline", i] => Some(Question::Deadline(task(i)?)),
        ["ask", "awaited", i] => Some(Question::Awaited(task(i)?)),
        _ => None,
    }
}

/// Any call but an opening, by its fields.
fn call_of(fields: &[&str]) -> Option<Call> {
    match fields {
        ["announce", i, frame] => Some(Call::Announce {
            task: task(i)?,
            deadline: number(frame)?,
        }),
        ["tick", entries] => Some(Call::Tick {
            entries: usize::from(number_up_to(LONGEST_LIST as u16, entries)?),
        }),
        _ => Some(Call::Ask(question_of(fields)?)),
    }
}

/// The call that a line says, if it says one.
pub(crate) fn parse(heap: Global, line: &str) -> Result<Option<Call>, AllocError> {
    let fields: Vec<&str> = line.split(',').collect(heap)?;
    match fields.as_slice() {
        ["open", fit, choose, cores, unit, frames, parts @ ..] => {
            let rates = rates(heap, parts)?;
            Ok(opening((fit, choose), (cores, unit, frames), rates))
        }
        fields => Ok(call_of(fields)),
    }
}
