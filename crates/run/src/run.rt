//! A run: its choosing rule and its tables.
ghost use Rattle.std.specs.Prelude.{◌≡◌, length};
ghost use Rattle.ledger.specs.Calls.{announce, tick};
ghost use Rattle.ledger.specs.Theorems.{CallConforms};
ghost use Rattle.run.specs.Runs.{BlankRun, OpenedAs, Follows, AsFound, Ticked, announced, run_of, setting_of, ticked_as};
ghost use Rattle.run.specs.Keeping.{Kept};

use crate::announcing::begin_job;
use crate::filling::filled;
use crate::refusal::Refusal;
use crate::state::State;
use crate::ticking::carry_out;
use choosing::Choosing;
use packing::{Fitting, Opening, OpeningRefusal, Plan};

/// A run of the scheduler under a choosing rule.
#[derive(Drop)]
pub struct Run<C: Choosing> {
    pub(crate) rule: C,
    pub(crate) state: State,
    ghost kept: { Kept state },
}

impl<C: Choosing> Run<C> {
    /// A run that was never opened: it is over, has no tasks, and all its counts are 0.
    pub fn new(rule: C) -> Run<C>
        ensures rule { result.rule ≡ rule }
        ensures blank { BlankRun (C.chosen rule) result.state }
    {
        Run {
            rule,
            state: State::blank(),
        }
    }

    /// Opens a run under a fitting rule. A refused opening leaves the run as it is.
    pub fn open<F: Fitting>(&mut self, fitting: &F, opening: &Opening) -> Result<(), OpeningRefusal>
        ensures rule { self.new.rule ≡ self.old.rule }
        ensures opened { OpenedAs (F.fits fitting.now) (C.chosen self.old.rule) opening.now.load.cores opening.now.load.unit opening.now.frames opening.now.load.rates.now self.old.state self.new.state result }
    {
        let mut plan = Plan::blank();
        plan.make_for_run(fitting, opening)?;
        let load = opening.load;
        self.state = filled(&plan, load.cores, opening.frames, load.rates.len());
        Ok(())
    }

    /// Announces the deadline frame of the next job of an awaited task. A refused call changes nothing.
    pub fn announce(&mut self, task: usize, deadline: u32) -> Result<(), Refusal>
        ensures rule { self.new.rule ≡ self.old.rule }
        ensures follows { Follows (C.chosen self.old.rule) self.old.state (announce task deadline) (announced result) self.new.state }
        ensures refused { AsFound result self.old.state self.new.state }
        ensures cores { self.new.state.placing ≡ self.old.state.placing }
    {
        self.check_announce(task, deadline)?;
        begin_job(&mut self.state, task, deadline);
        Ok(())
    }

    /// One tick: names the task on each core in the core list, whose entries beyond the cores keep their content. A refused
    /// call changes nothing.
    pub fn tick(&mut self, list: &mut [u8]) -> Result<(), Refusal>
        ensures rule { self.new.rule ≡ self.old.rule }
        ensures ticked { Ticked (C.chosen self.old.rule) self.old.state list.old self.new.state list.new result }
        ensures law { CallConforms (setting_of (C.chosen self.old.rule) self.old.state) (run_of self.old.state) (tick (length list.old)) (ticked_as self.old.state.cores list.new result) (run_of self.new.state) }
    {
        self.check_tick(list.len())?;
        carry_out(&self.rule, &mut self.state, list);
        Ok(())
    }
}
