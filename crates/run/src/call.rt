//! Calls of a run and their answers, as values.
use crate::refusal::Refusal;
use cores::CORES;

/// A question, of the run or of a task of the sheet.
#[derive(Clone, Copy)]
pub enum Question {
    PresentTick,
    Left(usize),
    Deadline(usize),
    Awaited(usize),
    Reductions,
    Jobs,
    Preemptions,
}

/// A call of a run.
#[derive(Clone, Copy)]
pub enum Call {
    /// the deadline frame of the next job of a task
    Announce { task: usize, deadline: u32 },
    /// one tick, with a core list of so many entries
    Tick { entries: u8 },
    Ask(Question),
}

/// The task on each core: the first `cores` of the table.
#[derive(Clone, Copy)]
pub struct CoreList {
    pub tasks: [u8; CORES],
    pub cores: usize,
}

/// What a call that is not refused is answered.
#[derive(Clone, Copy)]
pub enum Reply {
    /// an announcement was granted
    Done,
    /// a tick was granted
    Named(CoreList),
    Number(u64),
    Truth(bool),
}

/// The answer to a call: the reply, or why it is refused.
pub type Answer = Result<Reply, Refusal>;
