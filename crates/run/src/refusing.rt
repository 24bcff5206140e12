//! Which calls are refused.
ghost use Rattle.std.specs.Prelude.{◌≡◌, IfSome, unwrap_or, ◌<◌};
ghost use Rattle.ledger.specs.Calls.{announce, tick};
ghost use Rattle.ledger.specs.Answering.{refusal, awaited, lowest_awaited};
ghost use Rattle.run.specs.Asked.{OfSheet};
ghost use Rattle.run.specs.Runs.{figures_of, refusal_told};
ghost use Rattle.run.specs.Views.{task_at};

use crate::refusal::Refusal;
use crate::run::Run;
use crate::task::Task;
use choosing::Choosing;

impl<C: Choosing> Run<C> {
    /// A task of the sheet.
    pub(crate) fn sheet_task(&self, task: usize) -> Result<&Task, Refusal>
        ensures { OfSheet self.now.state task (λ t. t.now ≡ task_at self.now.state task) result }
    {
        self.state.tasks[..self.state.sheet]
            .get(task)
            .ok_or(Refusal::UnknownTask)
    }

    /// Whether a task of the sheet is awaited.
    pub(crate) fn awaits(&self, task: usize) -> Result<bool, Refusal>
        ensures { OfSheet self.now.state task (λ b. b ≡ awaited (figures_of self.now.state) task) result }
    {
        Ok(self.sheet_task(task)?.phase.awaits())
    }

    /// Whether an announcement is refused, and why.
    pub(crate) fn check_announce(&self, task: usize, deadline: u32) -> Result<(), Refusal>
        ensures { refusal_told result ≡ refusal (figures_of self.now.state) (announce task deadline) }
    {
        if self.state.is_over() {
            return Err(Refusal::RunOver);
        }
        if !self.awaits(task)? {
            return Err(Refusal::NotAwaited);
        }
        if deadline <= self.state.frame() {
            return Err(Refusal::DeadlinePassed);
        }
        if deadline > self.state.frames {
            return Err(Refusal::DeadlineBeyondEnd);
        }
        Ok(())
    }

    /// The lowest task of the sheet that is awaited.
    fn lowest_awaited(&self) -> Option<usize>
        ensures lowest { unwrap_or result self.now.state.sheet ≡ lowest_awaited (figures_of self.now.state) }
        ensures known { IfSome result (λ i. i < self.now.state.sheet) }
    {
        self.state.tasks[..self.state.sheet]
            .iter()
            .position(|task| task.phase.awaits())
    }

    /// Whether a tick with a core list of so many entries is refused, and why.
    pub(crate) fn check_tick(&self, entries: usize) -> Result<(), Refusal>
        ensures { refusal_told result ≡ refusal (figures_of self.now.state) (tick entries) }
    {
        if self.state.is_over() {
            return Err(Refusal::RunOver);
        }
        if entries < self.state.cores as usize {
            return Err(Refusal::ShortCoreList);
        }
        if let Some(task) = self.lowest_awaited() {
            return Err(Refusal::TaskAwaited(task));
        }
        Ok(())
    }
}
