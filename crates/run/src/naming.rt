//! Which items of a level a tick names.
ghost use Rattle.std.specs.Prelude.{◌≡◌, ℕ, ◌≤◌, cond, length, None};
ghost use Rattle.levels.specs.Items.{clients as clients_of};
ghost use Rattle.levels.specs.Sums.{passing};
ghost use Rattle.run.specs.Levels.{items_of};
ghost use Rattle.run.specs.Turns.{Placed, marked, names_at, place_of, places_from};
ghost use Rattle.run.specs.Views.{flags};

use crate::clients::Clients;
use crate::level::Level;
use arrayvec::ArrayVec;
use choosing::{Choosing, Share};
use packing::TASKS;

/// The place of the item that a server with this share names: none if its dual is named.
fn pick<C: Choosing>(
    rule: &C,
    level: &Level,
    server: usize,
    share: Share,
    dual_named: bool,
    clients: &mut Clients,
) -> Option<usize>
    ensures pick { result ≡ place_of (cond dual_named None (C.chosen rule.now share (clients_of (items_of level.now) server))) (places_from 0 (items_of level.now) server) }
    ensures placed { Placed result }
{
    if dual_named {
        return None;
    }
    clients.copy_out(level, server);
    clients.place(rule.choose(share, &clients.shares))
}

/// Marks an item as named.
fn mark(named: &mut [bool; TASKS], item: Option<usize>)
    requires { Placed item }
    ensures { named.new ≡ marked item named.old }
{
    if let Some(i) = item {
        named[i] = true;
    }
}

/// The items that the servers of a level name. A server whose dual is named names none.
pub(crate) fn name_items<C: Choosing>(
    rule: &C,
    level: &Level,
    dual_named: &[bool; TASKS],
    clients: &mut Clients,
) -> [bool; TASKS]
    ensures { (i : ℕ) → flags result i ≡ names_at (C.chosen rule.now) level.now.state.now level.now.number (flags dual_named.now) i }
{
    let mut named = [false; TASKS];
    for (j, server) in level.servers().iter().enumerate() {
        let item = pick(rule, level, j, server.share, dual_named[j], clients);
        mark(&mut named, item);
    }
    named
}

/// The numbers of the tasks that are named, in their order.
pub(crate) fn list_named(named: &[bool]) -> ArrayVec<u8, TASKS>
    requires { length named.now ≤ 80 }
    ensures { result.items ≡ passing 0 (length named.now) (flags named.now) }
{
    let mut tasks = ArrayVec::new();
    for (task, named) in named.iter().enumerate() {
        if *named {
            tasks.push(task as u8);
        }
    }
    tasks
}
