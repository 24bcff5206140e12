//! A task gets its next job.
ghost use Rattle.std.specs.Prelude.{◌≡◌, ◌+◌, ◌^◌, ◌<◌, ◌≤◌, slice_set};
ghost use Rattle.run.specs.Views.{task_at};
ghost use Rattle.run.specs.Changing.{with_job};
ghost use Rattle.run.specs.Phases.{next};
ghost use Rattle.run.specs.declared.task.Event.TheVariants.{Announce};

use crate::state::State;
use crate::task::Event;

/// Begins the next job of a task, up to this deadline.
pub(crate) fn begin_job(state: &mut State, task: usize, deadline: u32)
    requires known { task < state.old.count }
    requires within { deadline ≤ 65535 }
    requires fits { state.old.jobs + 1 < 2 ^ 64 }
    ensures { state.new ≡ with_job state.old (slice_set state.old.tasks task (next (task_at state.old task) (Announce deadline))) }
{
    state.tasks[task].on(Event::Announce { deadline });
    state.jobs += 1;
}
