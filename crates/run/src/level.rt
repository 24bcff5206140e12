//! A level of a run: its servers, and the items that it packs.
ghost use Rattle.std.specs.Prelude.{◌≡◌, ℕ, ◌-◌, ◌<◌, ◌≤◌, length, map};
ghost use Rattle.levels.specs.Items.{dual_of};
ghost use Rattle.levels.specs.declared.item.Item.{Item};
ghost use Rattle.run.specs.Views.{item_of};

use crate::state::State;
use crate::task::Task;
use choosing::Share;
use levels::Server;

/// A level of the tables of a run.
#[derive(Clone, Copy)]
pub(crate) struct Level<'a> {
    pub state: &'a State,
    pub number: usize,
    ghost table: { length state.now.tasks ≡ 80 },
    ghost there: { number < length state.now.levels.items },
}

/// What a level packs: a task, or a server of the level below for its dual.
pub(crate) trait Packed {
    /// It as an item, where a whole core has so many parts.
    ghost item: { Self → ℕ → Item };

    /// The server that it was placed in.
    fn home(&self) -> Option<u8>
        ensures { (unit : ℕ) → result ≡ (item self.now unit).home };

    /// Its share.
    fn share(&self, unit: u32) -> Share
        requires { unit ≤ 1000 }
        ensures { result ≡ (item self.now unit).share };
}

impl Packed for Task {
    ghost item = { λ task _. item_of task };

    fn home(&self) -> Option<u8> {
        self.home
    }

    fn share(&self, _unit: u32) -> Share {
        self.share
    }
}

impl Packed for Server {
    ghost item = { λ server unit. dual_of unit server };

    fn home(&self) -> Option<u8> {
        self.home
    }

    fn share(&self, unit: u32) -> Share {
        let rate = unit.saturating_sub(u32::from(self.share.rate));
        Share {
            left: self.dual,
            rate: rate as u16,
            deadline: self.share.deadline,
        }
    }
}

impl<'a> Level<'a> {
    ghost use Rattle.run.specs.Levels.{servers_of};
    ghost use Rattle.run.specs.Turns.{servers_at};
    ghost use Rattle.run.specs.Views.{item_of, tasks_of};

    /// Its servers.
    pub fn servers(&self) -> &'a [Server]
        ensures servers { result.now ≡ servers_of self.now }
        ensures few { length result.now ≤ 31 }
    {
        &self.state.levels[self.number]
    }

    /// The tasks, which the lowest level packs.
    pub fn tasks(&self) -> &'a [Task]
        ensures tasks { map item_of result.now ≡ tasks_of self.now.state.now }
        ensures few { length result.now ≤ 80 }
    {
        &self.state.tasks[..self.state.count]
    }

    /// The servers of the level below, whose duals it packs.
    pub fn below(&self) -> &'a [Server]
        requires { 0 < self.now.number }
        ensures servers { result.now ≡ servers_at self.now.state.now (self.now.number - 1) }
        ensures few { length result.now ≤ 31 }
    {
        &self.state.levels[self.number - 1]
    }
}
