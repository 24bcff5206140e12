//! What a tick counts: the tasks that it preempts, and those that it leaves unfinished.
ghost use Rattle.std.specs.Prelude.{◌≡◌, ◌+◌, ◌^◌, ◌<◌, ◌≤◌, filter};
ghost use Rattle.cores.specs.Counting.{preemptions as preemptions_of};
ghost use Rattle.run.specs.Changing.{remade};
ghost use Rattle.run.specs.Counts.{has_left};

use crate::state::State;
use crate::task::Task;
use arrayvec::ArrayVec;
use cores::preempted;
use packing::TASKS;

/// The test that a task has left.
fn has_left(tasks: &[Task; TASKS], task: u8) -> bool
    ensures { result ≡ has_left tasks.now task }
{
    tasks
        .get(usize::from(task))
        .is_some_and(|task| task.share.left > 0)
}

/// Keeps of a list the tasks that have left.
fn keep_unfinished(list: &mut ArrayVec<u8, TASKS>, tasks: &[Task; TASKS])
    ensures { list.new.items ≡ filter (has_left tasks.now) list.old.items }
{
    list.retain(|task| has_left(tasks, *task));
}

/// How many of the tasks that the last tick left unfinished this one does not name.
fn preempted_of(unfinished: &ArrayVec<u8, TASKS>, named: &ArrayVec<u8, TASKS>) -> usize
    ensures count { result ≡ preemptions_of unfinished.now.items named.now.items }
    ensures few { result ≤ 80 }
{
    preempted(unfinished, named)
}

/// Counts the tasks that the last tick left unfinished and that this one does not name, and keeps those that this one leaves
/// unfinished.
pub(crate) fn count_tick(state: &mut State, mut named: ArrayVec<u8, TASKS>)
    requires { state.old.preemptions + 80 < 2 ^ 64 }
    ensures kept { state.new ≡ remade state.old state.old.tick state.old.tasks state.old.levels state.old.jobs (state.old.preemptions + preemptions_of state.old.unfinished.items named.items) state.old.placing state.new.unfinished }
    ensures unfinished { state.new.unfinished.items ≡ filter (has_left state.old.tasks) named.items }
    ensures few { preemptions_of state.old.unfinished.items named.items ≤ 80 }
{
    let count = preempted_of(&state.unfinished, &named);
    state.preemptions += count as u64;
    keep_unfinished(&mut named, &state.tasks);
    state.unfinished = named;
}
