//! The levels in a tick: renewed from the lowest up, and run from the top down.
ghost use Rattle.std.specs.Prelude.{◌≡◌, ℕ, ◌+◌, ◌*◌, ◌^◌, ◌<◌, length};
ghost use Rattle.levels.specs.Renewing.{renew_levels};
ghost use Rattle.levels.specs.Running.{ready};
ghost use Rattle.run.specs.Changing.{with_all, with_levels};
ghost use Rattle.run.specs.Turns.{GoneOn, Ran, RanAll, Renewed, names_at};
ghost use Rattle.run.specs.Views.{flags, levels_of, machine, tasks_of, view};

use crate::clients::Clients;
use crate::level::Level;
use crate::naming::{list_named, name_items};
use crate::renewing::renewed_servers;
use crate::spending::{spend_servers, tick_tasks};
use crate::state::State;
use arrayvec::ArrayVec;
use choosing::Choosing;
use packing::TASKS;

/// Renews one level.
fn renew_level(state: &mut State, number: usize, frame: u32)
    requires { number < length state.old.levels.items }
    ensures { Renewed state.old state.new number frame }
{
    let servers = renewed_servers(&Level { state, number }, frame);
    state.levels[number] = servers;
}

/// Renews every level, the lowest first.
pub(crate) fn renew_levels(state: &mut State, frame: u32)
    ensures levels { levels_of state.new ≡ renew_levels state.old.unit state.old.frames frame (tasks_of state.old) (levels_of state.old) }
    ensures kept { state.new ≡ with_levels state.old state.new.levels }
{
    for level in 0..state.levels.len() {
        renew_level(state, level, frame);
    }
}

/// Runs one level, where these are the servers whose duals are named, and answers which items are named.
fn run_level<C: Choosing>(
    rule: &C,
    state: &mut State,
    number: usize,
    dual_named: &[bool; TASKS],
    clients: &mut Clients,
) -> [bool; TASKS]
    requires { number < length state.old.levels.items }
    ensures named { (i : ℕ) → flags result i ≡ names_at (C.chosen rule.now) state.old number (flags dual_named.now) i }
    ensures ran { Ran state.old state.new number dual_named.now }
{
    let level = Level { state, number };
    let named = name_items(rule, &level, dual_named, clients);
    spend_servers(&mut state.levels[number], dual_named);
    named
}

/// Runs every level from the top down, takes one tick from all that runs, and answers the tasks that are named.
pub(crate) fn run_levels<C: Choosing>(rule: &C, state: &mut State) -> ArrayVec<u8, TASKS>
    ensures { RanAll (C.chosen rule.now) state.old state.new result.items }
{
    let mut clients = Clients::default();
    let mut named = [false; TASKS];
    for level in (0..state.levels.len()).rev() {
        named = run_level(rule, state, level, &named, &mut clients);
    }
    tick_tasks(state, &named);
    list_named(&named[..state.count])
}

/// At a frame start, renews the servers whose deadline it is.
pub(crate) fn make_ready(state: &mut State)
    requires { state.old.tick < state.old.unit * state.old.frames }
    ensures levels { levels_of state.new ≡ ready (machine state.old) (view state.old) }
    ensures kept { state.new ≡ with_levels state.old state.new.levels }
{
    if state.starts_frame() {
        let frame = state.frame();
        renew_levels(state, frame);
    }
}

/// Goes to the next tick.
fn advance(state: &mut State)
    requires { state.old.tick + 1 < 2 ^ 32 }
    ensures { state.new ≡ with_all state.old (state.old.tick + 1) state.old.tasks state.old.levels }
{
    state.tick += 1;
}

/// One tick of a run that is not over. It answers the tasks that are named.
pub(crate) fn go_on<C: Choosing>(rule: &C, state: &mut State) -> ArrayVec<u8, TASKS>
    requires { state.old.tick < state.old.unit * state.old.frames }
    ensures { GoneOn (C.chosen rule.now) state.old state.new result.items }
{
    make_ready(state);
    let named = run_levels(rule, state);
    advance(state);
    named
}
