//! The questions that a run answers. They leave it as it is.
ghost use Rattle.std.specs.Prelude.{◌≤◌};
ghost use Rattle.ledger.specs.Calls.{ask, number, present_tick, left_of, deadline_of, is_awaited, reductions_made, jobs_begun, preemptions_made};
ghost use Rattle.run.specs.Runs.{Follows, number_told, truth_told};

use crate::refusal::Refusal;
use crate::run::Run;
use choosing::Choosing;

impl<C: Choosing> Run<C> {
    /// The present tick.
    pub fn present_tick(&self) -> u32
        ensures { Follows (C.chosen self.now.rule) self.now.state (ask present_tick) (number result) self.now.state }
    {
        self.state.tick
    }

    /// What is left of the present job of a task of the sheet.
    pub fn left(&self, task: usize) -> Result<u32, Refusal>
        ensures { Follows (C.chosen self.now.rule) self.now.state (ask (left_of task)) (number_told result) self.now.state }
    {
        Ok(self.sheet_task(task)?.share.left)
    }

    /// The deadline frame of the present job of a task of the sheet.
    pub fn deadline(&self, task: usize) -> Result<u32, Refusal>
        ensures { Follows (C.chosen self.now.rule) self.now.state (ask (deadline_of task)) (number_told result) self.now.state }
    {
        Ok(self.sheet_task(task)?.share.deadline)
    }

    /// Whether a task of the sheet is awaited.
    pub fn awaited(&self, task: usize) -> Result<bool, Refusal>
        ensures { Follows (C.chosen self.now.rule) self.now.state (ask (is_awaited task)) (truth_told result) self.now.state }
    {
        self.awaits(task)
    }

    /// The reductions of the plan.
    pub fn reductions(&self) -> usize
        ensures follows { Follows (C.chosen self.now.rule) self.now.state (ask reductions_made) (number result) self.now.state }
        ensures few { result ≤ 4 }
    {
        self.state.levels.len().saturating_sub(1)
    }

    /// The jobs begun: the announcements granted, and one for each idle task.
    pub fn jobs(&self) -> u64
        ensures { Follows (C.chosen self.now.rule) self.now.state (ask jobs_begun) (number result) self.now.state }
    {
        self.state.jobs
    }

    /// The preemptions so far.
    pub fn preemptions(&self) -> u64
        ensures { Follows (C.chosen self.now.rule) self.now.state (ask preemptions_made) (number result) self.now.state }
    {
        self.state.preemptions
    }
}
