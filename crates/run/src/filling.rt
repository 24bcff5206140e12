//! The tables of a run, filled from its plan.
ghost use Rattle.std.specs.Prelude.{◌≡◌, ◌≤◌, [], length, map, drop, None, slice_index_or};
ghost use Rattle.packing.specs.Tables.{over, levels_in};
ghost use Rattle.levels.specs.Opening.{homes_in, servers_in, servers_of, unbegun};
ghost use Rattle.run.specs.Views.{level_servers};
ghost use Rattle.run.specs.Opened.{Filled, Fits, planned_tasks, unbegun_server, unbegun_task};

use crate::state::State;
use crate::task::{Event, Phase, Task, all_on};
use arrayvec::ArrayVec;
use choosing::Share;
use cores::Cores;
use levels::Server;
use packing::{LEVELS, Plan, SERVERS, TASKS};

/// The home that a level of the plan gives an item; there is none above the top.
fn home_in(plan: &Plan, level: usize, item: usize) -> Option<u8>
    ensures { result ≡ slice_index_or (homes_in (drop level (levels_in plan.now))) item None }
{
    plan.packed_levels().get(level)?.home(item)
}

/// A share before any job.
fn unbegun(rate: u16) -> Share
    ensures { result ≡ unbegun rate }
{
    Share {
        rate,
        ..Share::default()
    }
}

/// A task before any job: its first is awaited.
fn unbegun_task(rate: u16, home: Option<u8>) -> Task
    ensures { result ≡ unbegun_task rate home }
{
    Task {
        share: unbegun(rate),
        home,
        phase: Phase::Awaited,
    }
}

/// A server before any job.
fn unbegun_server(rate: u16, home: Option<u8>) -> Server
    ensures { result ≡ unbegun_server rate home }
{
    Server {
        share: unbegun(rate),
        dual: 0,
        home,
    }
}

/// Writes the tasks of the plan, before any job.
fn fill_tasks(plan: &Plan, tasks: &mut [Task; TASKS])
    ensures { tasks.new ≡ over (planned_tasks plan.now) tasks.old }
{
    for (i, rate) in plan.task_rates().iter().enumerate() {
        tasks[i] = unbegun_task(*rate, home_in(plan, 0, i));
    }
}

/// The servers of these rates, before any job, whose duals are items of this level of the plan.
fn servers_of(plan: &Plan, rates: &[u16], above: usize) -> ArrayVec<Server, SERVERS>
    requires { length rates.now ≤ 31 }
    ensures { result.items ≡ servers_of rates.now (homes_in (drop above (levels_in plan.now))) }
{
    let mut servers = ArrayVec::new();
    for (j, rate) in rates.iter().enumerate() {
        servers.push(unbegun_server(*rate, home_in(plan, above, j)));
    }
    servers
}

/// Fills a vector with the levels of the plan.
fn fill_levels(plan: &Plan, levels: &mut ArrayVec<ArrayVec<Server, SERVERS>, LEVELS>)
    requires { levels.old.items ≡ [] }
    ensures { map level_servers levels.new.items ≡ servers_in (levels_in plan.now) }
{
    for (k, level) in plan.packed_levels().iter().enumerate() {
        levels.push(servers_of(plan, level.server_rates(), k + 1));
    }
}

/// The tables of a run as it is opened over its plan, for so many tasks of the sheet. The idle tasks, which come after these,
/// begin their jobs, with the end of the run as their deadline.
pub(crate) fn filled(plan: &Plan, cores: u32, frames: u32, sheet: usize) -> State
    requires { Fits plan.now cores frames sheet }
    ensures { Filled plan.now cores frames sheet result }
{
    let mut tasks = [Task::BLANK; TASKS];
    fill_tasks(plan, &mut tasks);
    let count = plan.task_rates().len();
    all_on(
        &mut tasks[sheet..count],
        Event::Announce { deadline: frames },
    );
    let mut levels = ArrayVec::new();
    fill_levels(plan, &mut levels);
    State {
        cores,
        unit: u32::from(plan.unit),
        frames,
        tick: 0,
        sheet,
        tasks,
        count,
        levels,
        jobs: (count - sheet) as u64,
        preemptions: 0,
        placing: Cores::new(),
        unfinished: ArrayVec::new(),
    }
}
