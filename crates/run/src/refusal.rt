//! The reasons to refuse a call of a run.
ghost use Rattle.std.specs.Prelude.{◌≡◌};
ghost use Rattle.run.specs.Refusals.{row};

/// Why an announcement, a tick or a question is refused.
#[derive(Clone, Copy, PartialEq, Eq, Debug)]
pub enum Refusal {
    /// the run is over
    RunOver,
    /// no task of the sheet has this number
    UnknownTask,
    /// the task is not awaited
    NotAwaited,
    /// the deadline is at or before this frame
    DeadlinePassed,
    /// the deadline is above the number of frames
    DeadlineBeyondEnd,
    /// the core list is shorter than the cores
    ShortCoreList,
    /// this task, the lowest such, is awaited
    TaskAwaited(usize),
}

impl Refusal {
    /// The number of its row in the table of refusals.
    pub fn number(self) -> u8
        ensures { result ≡ (row self).number }
    {
        match self {
            Refusal::RunOver => 11,
            Refusal::UnknownTask => 12,
            Refusal::NotAwaited => 13,
            Refusal::DeadlinePassed => 14,
            Refusal::DeadlineBeyondEnd => 15,
            Refusal::ShortCoreList => 21,
            Refusal::TaskAwaited(_) => 22,
        }
    }

    /// The task that it names, if it names one.
    pub fn task(self) -> Option<usize>
        ensures { result ≡ (row self).task }
    {
        match self {
            Refusal::TaskAwaited(task) => Some(task),
            _ => None,
        }
    }
}
