//! What one tick takes from servers and tasks.
ghost use Rattle.std.specs.Prelude.{◌≡◌, ◌≤◌, length};
ghost use Rattle.levels.specs.Ticking.{spend_server, spend_servers};
ghost use Rattle.run.specs.Changing.{Changed, with_tasks};
ghost use Rattle.run.specs.Turns.{tick_if};
ghost use Rattle.run.specs.Views.{flags, blank_task};

use crate::state::State;
use crate::task::{Event, Task};
use levels::Server;
use packing::TASKS;

/// Either the dual runs for a tick, or the server does.
fn spend(server: &mut Server, dual_named: bool)
    ensures { server.new ≡ spend_server dual_named server.old }
{
    if dual_named {
        server.dual = server.dual.saturating_sub(1);
    } else {
        server.share.spend();
    }
}

/// Takes one tick from each server or from its dual.
pub(crate) fn spend_servers(servers: &mut [Server], dual_named: &[bool; TASKS])
    requires { length servers.old ≤ 80 }
    ensures { servers.new ≡ spend_servers (flags dual_named.now) servers.old }
{
    for (j, server) in servers.iter_mut().enumerate() {
        spend(server, dual_named[j]);
    }
}

/// Takes those of the first tasks of a table that are named through a tick.
fn tick_named(tasks: &mut [Task; TASKS], count: usize, named: &[bool; TASKS])
    requires { count ≤ 80 }
    ensures { Changed blank_task (λ i t. tick_if (flags named.now i) t) tasks.old tasks.new count }
{
    for (i, named) in named[..count].iter().enumerate() {
        if *named {
            tasks[i].on(Event::Tick);
        }
    }
}

/// Takes the tasks that are named through a tick.
pub(crate) fn tick_tasks(state: &mut State, named: &[bool; TASKS])
    ensures kept { state.new ≡ with_tasks state.old state.new.tasks }
    ensures ticked { Changed blank_task (λ i t. tick_if (flags named.now i) t) state.old.tasks state.new.tasks state.old.count }
{
    tick_named(&mut state.tasks, state.count, named);
}
