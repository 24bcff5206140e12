//! Whole lists of calls.
ghost use Rattle.std.specs.Prelude.{◌≡◌, ℕ, ◌<◌, min, length, take, drop, slice_index};
ghost use Rattle.ledger.specs.Calls.{ask, tick};
ghost use Rattle.run.specs.Replays.{answer_of, call_of, history_of, question_of, AllAnswered, Answered, GoesOnBy, Replayed, TickAnswered};
ghost use Rattle.run.specs.Runs.{Follows, Lawfully, announced, number_told, truth_told};

use crate::call::{Answer, Call, CoreList, Question, Reply};
use crate::run::Run;
use choosing::Choosing;
use cores::CORES;
use packing::{Fitting, Opening, OpeningRefusal};

/// The front of a core list; what it lacks is 0.
fn front(list: &[u8]) -> [u8; CORES]
    ensures { (k : ℕ) → k < 16 → k < length list.now → slice_index result k ≡ slice_index list.now k }
{
    let mut tasks = [0; CORES];
    let cores = list.len().min(CORES);
    tasks[..cores].copy_from_slice(&list[..cores]);
    tasks
}

impl<C: Choosing> Run<C> {
    /// Puts a call to the run, and answers it.
    pub fn put(&mut self, call: Call) -> Answer
        ensures rule { self.new.rule ≡ self.old.rule }
        ensures answered { Answered (C.chosen self.old.rule) self.old.state call result self.new.state }
        ensures law { Lawfully (C.chosen self.old.rule) self.old.state (call_of call) (answer_of result) self.new.state }
    {
        match call {
            Call::Announce { task, deadline } => self
                .announce(task, deadline)
                .map(|()| Reply::Done),
            Call::Tick { entries } => self.tick_entries(entries),
            Call::Ask(question) => self.asked(question),
        }
    }

    /// Ticks with a core list of so many entries, and answers the tasks on the cores.
    fn tick_entries(&mut self, entries: u8) -> Answer
        ensures rule { self.new.rule ≡ self.old.rule }
        ensures answered { TickAnswered (C.chosen self.old.rule) self.old.state entries result self.new.state }
        ensures law { Lawfully (C.chosen self.old.rule) self.old.state (tick entries) (answer_of result) self.new.state }
    {
        let cores = self.state.cores as usize;
        let mut list = [0; 255];
        let list = &mut list[..usize::from(entries)];
        self.tick(list)?;
        Ok(Reply::Named(CoreList {
            tasks: front(list),
            cores,
        }))
    }

    /// Answers a question.
    fn asked(&self, question: Question) -> Answer
        ensures { Follows (C.chosen self.now.rule) self.now.state (ask (question_of question)) (answer_of result) self.now.state }
    {
        Ok(match question {
            Question::PresentTick => Reply::Number(u64::from(self.present_tick())),
            Question::Left(task) => Reply::Number(u64::from(self.left(task)?)),
            Question::Deadline(task) => Reply::Number(u64::from(self.deadline(task)?)),
            Question::Awaited(task) => Reply::Truth(self.awaited(task)?),
            Question::Reductions => Reply::Number(self.reductions() as u64),
            Question::Jobs => Reply::Number(self.jobs()),
            Question::Preemptions => Reply::Number(self.preemptions()),
        })
    }
}

/// Puts calls to a run, one after the other, as long as there is room for their answers. Answers how many were put.
fn play<C: Choosing>(run: &mut Run<C>, calls: &[Call], answers: &mut [Answer]) -> usize
    ensures all { result ≡ min (length calls.now) (length answers.old) }
    ensures answered { AllAnswered (C.chosen run.old.rule) run.old.state (take result calls.now) (take result answers.new) run.new.state }
    ensures reaches { GoesOnBy (C.chosen run.old.rule) run.old.state (history_of (take result calls.now) (take result answers.new)) (C.chosen run.new.rule) run.new.state }
    ensures behind { drop result answers.new ≡ drop result answers.old }
{
    let count = calls.len().min(answers.len());
    for (i, call) in calls[..count].iter().enumerate() {
        answers[i] = run.put(*call);
    }
    count
}

/// Opens a run under a fitting and a choosing rule and puts calls to it, one after the other, as long as there is room for
/// their answers. Answers how many were put. A refused opening leaves the answers as they are.
pub fn replay<F: Fitting, C: Choosing + Drop>(
    fitting: &F,
    rule: C,
    opening: &Opening,
    calls: &[Call],
    answers: &mut [Answer],
) -> Result<usize, OpeningRefusal>
    ensures { Replayed (F.fits fitting.now) (C.chosen rule) opening.now.load.cores opening.now.load.unit opening.now.frames opening.now.load.rates.now calls.now answers.old answers.new result }
{
    let mut run = Run::new(rule);
    run.open(fitting, opening)?;
    Ok(play(&mut run, calls, answers))
}
