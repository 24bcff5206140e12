//! The plan of a run, which also has frames.
ghost use Rattle.std.specs.Prelude.{◌≡◌, MatchResult};
ghost use Rattle.packing.specs.declared.opening.OpeningRefusal.TheVariants.{Load as LoadRefused};
ghost use Rattle.packing.specs.Openings.{opening_row, FirstOfOpening, OpeningAllowed, MadeForRun};

use crate::build::plan_of;
use crate::fitting::Fitting;
use crate::limits::FRAMES;
use crate::load::Load;
use crate::plan::Plan;
use crate::refusal::Refusal;

/// The opening of a run.
#[derive(Clone, Copy)]
pub struct Opening<'a> {
    pub load: Load<'a>,
    /// how many frames the run has
    pub frames: u32,
}

/// Why the opening of a run is refused.
#[derive(Clone, Copy, PartialEq, Eq, Debug)]
pub enum OpeningRefusal {
    /// its load is refused
    Load(Refusal),
    /// frames not 1 to 65,535
    BadFrames,
}

impl From<Refusal> for OpeningRefusal {
    ghost from_gives = { λ refusal e. e ≡ LoadRefused refusal };

    fn from(refusal: Refusal) -> OpeningRefusal {
        OpeningRefusal::Load(refusal)
    }
}

impl OpeningRefusal {
    /// The number of its row in the table of refusals.
    pub fn number(self) -> u8
        ensures { result ≡ (opening_row self).number }
    {
        match self {
            OpeningRefusal::Load(refusal) => refusal.number(),
            OpeningRefusal::BadFrames => 3,
        }
    }

    /// The task that it names, if it names one.
    pub fn task(self) -> Option<usize>
        ensures { result ≡ (opening_row self).task }
    {
        match self {
            OpeningRefusal::Load(refusal) => refusal.task(),
            OpeningRefusal::BadFrames => None,
        }
    }
}

impl Opening<'_> {
    /// Whether the opening is allowed, or the refusal that counts.
    fn check(&self) -> Result<(), OpeningRefusal>
        ensures { let o = self.now in
            MatchResult result (λ _. OpeningAllowed o.load.cores o.load.unit o.frames o.load.rates.now)
            (FirstOfOpening o.load.cores o.load.unit o.frames o.load.rates.now) }
    {
        self.load.check_head()?;
        if !(1..=FRAMES).contains(&self.frames) {
            return Err(OpeningRefusal::BadFrames);
        }
        self.load.check_tasks()?;
        Ok(())
    }
}

impl Plan {
    /// Makes the plan of a run, which is that of its load. A refused opening leaves the plan as it is.
    pub fn make_for_run<F: Fitting>(
        &mut self,
        rule: &F,
        opening: &Opening,
    ) -> Result<(), OpeningRefusal>
        ensures { let o = opening.now in
            MadeForRun (F.fits rule.now) o.load.cores o.load.unit o.frames o.load.rates.now self.old self.new result }
    {
        opening.check()?;
        *self = plan_of(rule, &opening.load);
        Ok(())
    }
}
