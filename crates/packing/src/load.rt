//! A load, and whether it is allowed.
ghost use Rattle.std.specs.Prelude.{◌≡◌, ◌<◌, ◌≤◌, length, Decides, sum, MatchResult};
ghost use Rattle.packing.specs.Packing.{Within};
ghost use Rattle.packing.specs.Plan.{all_tasks};
ghost use Rattle.packing.specs.Refusals.{row, First, Allowed};
ghost use Rattle.packing.specs.Steps.{Bounded, FirstOutside, Limits};

use crate::limits::{CORES, SHEET_TASKS, TASKS, UNIT};
use crate::refusal::Refusal;
use arrayvec::ArrayVec;

/// A load: the cores, the parts in one whole core, and the rate of each task.
#[derive(Clone, Copy)]
pub struct Load<'a> {
    pub cores: u32,
    pub unit: u32,
    pub rates: &'a [u16],
}

/// Whether a rate is from 1 to the unit.
fn is_within(rate: u16, unit: u32) -> bool
    ensures { Decides result (Within unit rate) }
{
    (1..=unit).contains(&u32::from(rate))
}

impl Load<'_> {
    /// The sum of the rates.
    pub(crate) fn total(&self) -> u32
        requires { length self.now.rates.now ≤ 64 }
        ensures { result ≡ sum self.now.rates.now }
    {
        self.rates.iter().map(|rate| u32::from(*rate)).sum()
    }

    /// The first task whose rate is 0 or above the unit.
    fn first_outside(&self) -> Option<usize>
        ensures { FirstOutside self.now.unit self.now.rates.now result }
    {
        self.rates
            .iter()
            .position(|rate| !is_within(*rate, self.unit))
    }

    /// Whether the cores and the unit are allowed, or the refusal that counts.
    pub(crate) fn check_head(&self) -> Result<(), Refusal>
        ensures { let load = self.now in
            MatchResult result (λ _. Bounded load.cores load.unit)
            (λ e. First load.cores load.unit load.rates.now e × ((row e).number < 3)) }
    {
        if !(1..=CORES).contains(&self.cores) {
            return Err(Refusal::BadCores);
        }
        if !(1..=UNIT).contains(&self.unit) {
            return Err(Refusal::BadUnit);
        }
        Ok(())
    }

    /// Whether the tasks are allowed, or the refusal that counts, where cores and unit are allowed.
    pub(crate) fn check_tasks(&self) -> Result<(), Refusal>
        requires { Bounded self.now.cores self.now.unit }
        ensures { let load = self.now in
            MatchResult result (λ _. Allowed load.cores load.unit load.rates.now) (First load.cores load.unit load.rates.now) }
    {
        if !(1..=SHEET_TASKS).contains(&self.rates.len()) {
            return Err(Refusal::BadTaskCount);
        }
        if let Some(task) = self.first_outside() {
            return Err(Refusal::BadRate(task));
        }
        if self.total() > self.cores * self.unit {
            return Err(Refusal::Overload);
        }
        Ok(())
    }

    /// Whether the load is allowed, or the refusal that counts.
    pub(crate) fn check(&self) -> Result<(), Refusal>
        ensures { let load = self.now in
            MatchResult result (λ _. Allowed load.cores load.unit load.rates.now) (First load.cores load.unit load.rates.now) }
    {
        self.check_head()?;
        self.check_tasks()
    }

    /// The rates of the load's tasks, and behind them those of the idle ones, which take the parts that are spare.
    pub(crate) fn all_tasks(&self) -> ArrayVec<u16, TASKS>
        requires { Limits self.now.cores self.now.unit self.now.rates.now }
        ensures { result.items ≡ all_tasks self.now.cores self.now.unit self.now.rates.now }
    {
        let spare = self.cores * self.unit - self.total();
        let mut tasks = ArrayVec::try_from(self.rates).unwrap();
        for _ in 0..spare / self.unit {
            tasks.push(self.unit as u16);
        }
        let rest = (spare % self.unit) as u16;
        if rest > 0 {
            tasks.push(rest);
        }
        tasks
    }
}
