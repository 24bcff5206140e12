//! One level of a plan.
ghost use Rattle.std.specs.Prelude.{◌≡◌, ◌≤◌, None, slice_index_or, MatchOption, length, Decides};
ghost use Rattle.packing.specs.Made.{PackedLevel};
ghost use Rattle.packing.specs.Packing.{at_home};
ghost use Rattle.packing.specs.Plan.{duals, OnlyRoots};
ghost use Rattle.packing.specs.Steps.{Placed};
ghost use Rattle.packing.specs.Tables.{blank_level, level_table, packing_in};

use crate::fitting::Fitting;
use crate::limits::{SERVERS, TASKS};
use crate::table::{front, with_front};
use arrayvec::ArrayVec;

/// One level of a plan: the home of each of its items, and the rate of each of its servers. Behind its items and its
/// servers the tables are blank.
#[derive(Clone, Copy)]
pub struct Level {
    /// the server that each item was placed in; the dual of a root is no item and has none
    pub homes: [Option<u8>; TASKS],
    /// how many items there are
    pub items: usize,
    /// the rates of the servers in order of opening
    pub rates: [u16; SERVERS],
    /// how many servers there are
    pub servers: usize,
}

impl Default for Level {
    ghost is_default = { λ level. level ≡ blank_level };

    fn default() -> Level {
        Level::BLANK
    }
}

impl Level {
    /// A level with no item and no server.
    pub(crate) const BLANK: Level = Level {
        homes: [None; TASKS],
        items: 0,
        rates: [0; SERVERS],
        servers: 0,
    };

    /// Places items of these rates in order, each in the server that the rule names, or in a new one where it names none.
    /// A rate of 0 is no item. None where there are more than 80 items or 31 servers.
    pub fn pack<F: Fitting>(rule: &F, unit: u16, items: &[u16]) -> Option<Level>
        ensures { PackedLevel (F.fits rule.now) unit items.now result }
    {
        if items.len() > TASKS {
            return None;
        }
        let mut homes: ArrayVec<Option<u8>, TASKS> = ArrayVec::new();
        let mut rates = ArrayVec::new();
        for rate in items {
            let home = if *rate == 0 {
                None
            } else {
                Some(place(rule, unit, *rate, &mut rates)?)
            };
            homes.push(home);
        }
        Some(level_table(&homes, &rates))
    }

    /// The same level once more.
    pub fn copy(&self) -> Level
        ensures { result ≡ self.now }
    {
        *self
    }

    /// The homes of its items.
    pub fn item_homes(&self) -> &[Option<u8>]
        ensures { result.now ≡ (packing_in self.now).homes }
    {
        front(&self.homes, self.items)
    }

    /// The rates of its servers.
    pub fn server_rates(&self) -> &[u16]
        ensures rates { result.now ≡ (packing_in self.now).rates }
        ensures few { length result.now ≤ 31 }
    {
        front(&self.rates, self.servers)
    }

    /// The home of an item; none where it is no item of this level.
    pub fn home(&self, item: usize) -> Option<u8>
        ensures { result ≡ slice_index_or (packing_in self.now).homes item None }
    {
        self.item_homes().get(item).copied().flatten()
    }

    /// Whether each server has the whole unit.
    pub(crate) fn has_only_roots(&self, unit: u16) -> bool
        ensures { Decides result (OnlyRoots unit (packing_in self.now).rates) }
    {
        self.server_rates().iter().all(|rate| *rate == unit)
    }

    /// The rates of the servers' duals.
    pub(crate) fn duals(&self, unit: u16) -> ArrayVec<u16, SERVERS>
        ensures { result.items ≡ duals unit (packing_in self.now).rates }
    {
        let mut duals = ArrayVec::new();
        for rate in self.server_rates().iter() {
            duals.push(unit.saturating_sub(*rate));
        }
        duals
    }
}

/// The level of these homes and rates, in its tables.
fn level_table(homes: &[Option<u8>], rates: &[u16]) -> Level
    requires { (length homes.now ≤ 80) × (length rates.now ≤ 31) }
    ensures { result ≡ level_table (record { homes = homes.now; rates = rates.now }) }
{
    Level {
        homes: with_front([None; TASKS], homes),
        items: homes.len(),
        rates: with_front([0; SERVERS], rates),
        servers: rates.len(),
    }
}

/// Puts an item into the server that the rule names, or into a new one where it names none. Answers its home; none where
/// there is no room for a new server.
fn place<F: Fitting>(
    rule: &F,
    unit: u16,
    rate: u16,
    used: &mut ArrayVec<u16, SERVERS>,
) -> Option<u8>
    ensures { MatchOption result
        ((F.fits rule.now used.old.items unit rate ≡ None) × (length used.old.items ≡ 31))
        (λ home. Placed (F.fits rule.now used.old.items unit rate) used.old.items rate home used.new.items) }
{
    let home = match rule.fit(used, unit, rate) {
        Some(home) => {
            used[home] += rate;
            home
        }
        None => {
            used.try_push(rate).ok()?;
            used.len() - 1
        }
    };
    Some(home as u8)
}

/// The test that an item's home is this server.
pub fn is_home(home: Option<u8>, server: usize) -> bool
    ensures { result ≡ at_home home server }
{
    home.is_some_and(|home| usize::from(home) == server)
}
