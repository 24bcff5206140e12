//! The two runs, and what they answer to a call.
ghost use Rattle.std.specs.Prelude.{◌≡◌, min};
ghost use Rattle.choosing.specs.Rules.{earliest_deadline, least_slack};
ghost use Rattle.ledger.specs.Calls.{ask as asks};
ghost use Rattle.run.specs.Replays.{question_of};
ghost use Rattle.run.specs.Runs.{BlankRun, Follows};
ghost use Rattle.trials.specs.declared.call.Choose.TheVariants.{Earliest};
ghost use Rattle.trials.specs.Putting.{Put, OpenedSo, AnnouncedSo, TickedSo, Goes, said, last_after};

use crate::answer::{Refused, Reply};
use crate::call::{Call, Choose, Fit, LONGEST_LIST, Load};
use arrayvec::ArrayVec;
use choosing::Choosing;
use choosing::rules::{EarliestDeadline, LeastSlack};
use packing::Opening;
use packing::rules::{BestFit, FirstFit, WorstFit};
use run::Reply::Done;
use run::{Question, Run};

/// What an entry of a core list is before a tick.
const UNTOUCHED: u8 = 255;

/// A run for each choosing rule, and the rule of the last opening.
#[derive(Drop)]
pub(crate) struct Runs {
    earliest: Run<EarliestDeadline>,
    slack: Run<LeastSlack>,
    last: Choose,
}

impl Runs {
    /// Neither run is opened.
    pub fn new() -> Runs
        ensures last { result.last ≡ Earliest }
        ensures earliest { BlankRun earliest_deadline result.earliest.state }
        ensures slack { BlankRun least_slack result.slack.state }
    {
        Runs {
            earliest: Run::new(EarliestDeadline),
            slack: Run::new(LeastSlack),
            last: Choose::Earliest,
        }
    }

    /// Puts a call to the run of the last opening, or an opening to the run of its choosing rule.
    pub fn put(&mut self, call: &Call) -> Result<Reply, Refused>
        ensures last { self.new.last ≡ last_after call.now self.old.last }
        ensures goes { Goes self.new.last call.now self.old result self.new }
    {
        if let Call::Open { choose, .. } = call {
            self.last = *choose;
        }
        match self.last {
            Choose::Earliest => put(&mut self.earliest, call),
            Choose::Slack => put(&mut self.slack, call),
        }
    }
}

/// Puts a call to a run.
fn put<C: Choosing>(run: &mut Run<C>, call: &Call) -> Result<Reply, Refused>
    ensures { Put (C.chosen run.old.rule) call.now run.old.state result run.new.state }
{
    match call {
        Call::Open { fit, load, .. } => open(run, *fit, load),
        Call::Announce { task, deadline } => announce(run, *task, *deadline),
        Call::Tick { entries } => tick(run, *entries),
        Call::Ask(question) => ask(run, *question),
    }
}

/// Opens a run.
fn open<C: Choosing>(run: &mut Run<C>, fit: Fit, load: &Load) -> Result<Reply, Refused>
    ensures { OpenedSo (C.chosen run.old.rule) fit load.now run.old.state result run.new.state }
{
    let opening = Opening {
        load: packing::Load {
            cores: load.cores,
            unit: load.unit,
            rates: &load.rates,
        },
        frames: load.frames,
    };
    match fit {
        Fit::First => run.open(&FirstFit, &opening)?,
        Fit::Best => run.open(&BestFit, &opening)?,
        Fit::Worst => run.open(&WorstFit, &opening)?,
    }
    Ok(Reply::Told(Done))
}

/// Announces a deadline.
fn announce<C: Choosing>(run: &mut Run<C>, task: usize, deadline: u32) -> Result<Reply, Refused>
    ensures { AnnouncedSo (C.chosen run.old.rule) task deadline run.old.state result run.new.state }
{
    run.announce(task, deadline)?;
    Ok(Reply::Told(Done))
}

/// One tick, with a core list of so many entries.
fn tick<C: Choosing>(run: &mut Run<C>, entries: usize) -> Result<Reply, Refused>
    ensures { TickedSo (C.chosen run.old.rule) (min entries 20) run.old.state result run.new.state }
{
    let mut list = ArrayVec::from([UNTOUCHED; LONGEST_LIST]);
    list.truncate(entries);
    run.tick(list.as_mut_slice())?;
    Ok(Reply::Cores(list))
}

/// Asks a question.
fn ask<C: Choosing>(run: &mut Run<C>, question: Question) -> Result<Reply, Refused>
    ensures told { Follows (C.chosen run.old.rule) run.old.state (asks (question_of question)) (said result) run.old.state }
    ensures kept { run.new.state ≡ run.old.state }
{
    Ok(Reply::Told(run.put(run::Call::Ask(question))?))
}
