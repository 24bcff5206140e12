//! The plan of a load.
ghost use Rattle.std.specs.Prelude.{◌≡◌, ◌-◌, ◌≤◌, [], map, length, take, replicate, Some, None};
ghost use Rattle.packing.specs.Made.{Made};
ghost use Rattle.packing.specs.Plan.{climb};
ghost use Rattle.packing.specs.Tables.{over, plan_table, levels_in};

use crate::build::plan_of;
use crate::fitting::Fitting;
use crate::level::Level;
use crate::limits::{LEVELS, TASKS};
use crate::load::Load;
use crate::refusal::Refusal;
use crate::table::front;

/// The plan of a load: its tasks, and the levels of servers over them, the lowest first. The items of level 0 are the
/// tasks, and item j of any other level is the dual of server j of the level below. Behind its tasks and its levels the
/// tables are blank.
#[derive(Clone, Copy)]
pub struct Plan {
    /// the parts in one whole core
    pub unit: u16,
    /// the rates of the tasks, the idle ones after those of the sheet
    pub rates: [u16; TASKS],
    /// how many tasks there are
    pub tasks: usize,
    pub levels: [Level; LEVELS],
    /// how many levels there are
    pub depth: usize,
}

impl Plan {
    /// A plan with no task and no level.
    pub fn blank() -> Plan
        ensures { result ≡ plan_table 0 [] [] }
    {
        Plan {
            unit: 0,
            rates: [0; TASKS],
            tasks: 0,
            levels: [Level::BLANK; LEVELS],
            depth: 0,
        }
    }

    /// Makes the plan of a load. A refused load leaves the plan as it is.
    pub fn make<F: Fitting>(&mut self, rule: &F, load: &Load) -> Result<(), Refusal>
        ensures { Made (F.fits rule.now) load.now.cores load.now.unit load.now.rates.now self.old self.new result }
    {
        load.check()?;
        *self = plan_of(rule, load);
        Ok(())
    }

    /// The same plan once more.
    pub fn copy(&self) -> Plan
        ensures { result ≡ self.now }
    {
        *self
    }

    /// The rates of its tasks.
    pub fn task_rates(&self) -> &[u16]
        ensures rates { result.now ≡ take self.now.tasks self.now.rates }
        ensures few { length result.now ≤ 80 }
    {
        front(&self.rates, self.tasks)
    }

    /// Its levels, the lowest first.
    pub fn packed_levels(&self) -> &[Level]
        ensures levels { result.now ≡ take self.now.depth self.now.levels }
        ensures few { length result.now ≤ 5 }
    {
        front(&self.levels, self.depth)
    }

    /// The reductions: the levels less one.
    pub fn reductions(&self) -> usize
        ensures { result ≡ self.now.depth - 1 }
    {
        self.depth.saturating_sub(1)
    }

    /// The way of a task, level by level: the server that it was placed in, the server that this one's dual was placed in,
    /// and so on. Behind its end stands none; a number that no task has goes nowhere.
    pub fn path(&self, task: usize) -> [Option<u8>; LEVELS]
        ensures { result ≡ over (map Some (climb (levels_in self.now) task)) (replicate 5 None) }
    {
        let mut path = [None; LEVELS];
        let mut item = task;
        for (k, level) in self.packed_levels().iter().enumerate() {
            let Some(home) = level.home(item) else {
                return path;
            };
            path[k] = Some(home);
            item = usize::from(home);
        }
        path
    }
}
