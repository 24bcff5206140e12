//! Building a plan, one level after the other.
ghost use Rattle.std.specs.Prelude.{◌≡◌, ◌≤◌, List, IsSome, length, map};
ghost use Rattle.packing.specs.Made.{Planned};
ghost use Rattle.packing.specs.Packing.{Packing};
ghost use Rattle.packing.specs.Refusals.{Allowed};
ghost use Rattle.packing.specs.Steps.{FillsCores, Built};
ghost use Rattle.packing.specs.Tables.{level_table, plan_table};

use crate::fitting::Fitting;
use crate::level::Level;
use crate::limits::{LEVELS, TASKS};
use crate::load::Load;
use crate::plan::Plan;
use crate::table::with_front;
use arrayvec::ArrayVec;

/// The plan of these tasks with these levels, in its tables.
fn plan_table(unit: u16, tasks: &[u16], levels: &[Level]) -> Plan
    requires { (length tasks.now ≤ 80) × (length levels.now ≤ 5) }
    ensures { (ps : List Packing) → levels.now ≡ map level_table ps → result ≡ plan_table unit tasks.now ps }
{
    Plan {
        unit,
        rates: with_front([0; TASKS], tasks),
        tasks: tasks.len(),
        levels: with_front([Level::BLANK; LEVELS], levels),
        depth: levels.len(),
    }
}

/// The plan of tasks that fill whole cores: packs the items of one level after the other, until a level has only roots.
fn build<F: Fitting>(rule: &F, unit: u16, rates: ArrayVec<u16, TASKS>) -> Plan
    requires { FillsCores unit rates.items }
    ensures { Built (F.fits rule.now) unit rates.items result }
{
    let mut levels: ArrayVec<Level, LEVELS> = ArrayVec::new();
    let mut level = Level::pack(rule, unit, &rates).unwrap();
    while !level.has_only_roots(unit) {
        let above = Level::pack(rule, unit, &level.duals(unit)).unwrap();
        levels.push(level);
        level = above;
    }
    levels.push(level);
    plan_table(unit, &rates, &levels)
}

/// The plan of an allowed load.
pub(crate) fn plan_of<F: Fitting>(rule: &F, load: &Load) -> Plan
    requires { Allowed load.now.cores load.now.unit load.now.rates.now }
    ensures { Planned (F.fits rule.now) load.now.cores load.now.unit load.now.rates.now result }
{
    build(rule, load.unit as u16, load.all_tasks())
}
