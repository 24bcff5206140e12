//! The start of a frame: which tasks are awaited.
ghost use Rattle.std.specs.Prelude.{◌≡◌, ◌≤◌, length};
ghost use Rattle.run.specs.Changing.{Changed, with_tasks};
ghost use Rattle.run.specs.Keeping.{Phased, Unmarked, SameItems};
ghost use Rattle.run.specs.Phases.{next};
ghost use Rattle.run.specs.Views.{blank_task};
ghost use Rattle.run.specs.declared.task.Event.TheVariants.{FrameStart};

use crate::state::State;
use crate::task::{Event, Task, all_on};
use packing::TASKS;

/// Takes the first tasks of a table through the start of a frame.
fn start_tasks(tasks: &mut [Task; TASKS], count: usize, frame: u32)
    requires { count ≤ 80 }
    ensures { Changed blank_task (λ _ t. next t (FrameStart frame)) tasks.old tasks.new count }
{
    all_on(&mut tasks[..count], Event::FrameStart { frame });
}

/// At the start of a frame, unless the run is over, the tasks of the sheet whose deadline it is are awaited.
pub(crate) fn start_frame(state: &mut State)
    requires { Unmarked state.old }
    ensures kept { state.new ≡ with_tasks state.old state.new.tasks }
    ensures items { SameItems state.old state.new }
    ensures phased { Phased state.new }
    ensures table { length state.new.tasks ≡ 80 }
{
    if !state.is_over() && state.starts_frame() {
        let frame = state.frame();
        start_tasks(&mut state.tasks, state.sheet, frame);
    }
}
