//! The laws of runs over histories of calls, for every granted opening. There is nothing to run: each function carries the
//! theorem of its name, so that the check demands its proof.
ghost use Rattle.ledger.specs.Theorems.{EveryAllowedLoadOpens, EveryOpeningIsFresh, ABlankRunIsOver, EveryHistoryConforms, EveryCallConforms, EveryCallHasOneAnswer, EveryListOfCallsConforms, RunsConform, AWorkedHistory, WrongHistoriesDoNotConform, ConformingIsNotEnough};

use choosing::Choosing;
use packing::Fitting;

/// Every load, with its frames, that no row refuses is granted with any two lawful rules, over one plan and no other.
pub fn every_allowed_load_opens()
    ensures { EveryAllowedLoadOpens }
{}

/// A run as it is opened has the jobs of the idle tasks, from frame 0 to the end, and no others.
pub fn every_opening_is_fresh()
    ensures { EveryOpeningIsFresh }
{}

/// A record never opened is a run that is over, with no tasks, tick 0 and all counts 0, whatever is called.
pub fn a_blank_run_is_over()
    ensures { ABlankRunIsOver }
{}

/// Whatever the calls, and in whatever order a tick names its tasks: the history conforms to the ledger.
pub fn every_history_conforms()
    ensures { EveryHistoryConforms }
{}

/// For every history by which a run was reached, the history with one call more conforms, and reaches the run after it.
pub fn every_call_conforms()
    ensures { EveryCallConforms }
{}

/// Each call of any run has an answer, and all its answers are the same but for the order of the tasks that a tick names.
pub fn every_call_has_one_answer()
    ensures { EveryCallHasOneAnswer }
{}

/// For every list of calls, the history that the scheduler makes of it conforms to the ledger.
pub fn every_list_of_calls_conforms()
    ensures { EveryListOfCallsConforms }
{}

/// For any two types that keep the laws of their traits: every load, with its frames, that the table allows opens, and every history of its
/// calls conforms.
pub fn runs_conform<F: Fitting, C: Choosing>(fit: &F, choose: &C)
    ensures { RunsConform (F.fits fit.now) (C.chosen choose.now) }
{}

/// The scheduler answers two lists of calls as written; every refusal and every question occurs in them.
pub fn a_worked_history()
    ensures { AWorkedHistory }
{}

/// A missed deadline, a core left idle, a task on two cores, a tick granted too soon and others do not conform.
pub fn wrong_histories_do_not_conform()
    ensures { WrongHistoriesDoNotConform }
{}

/// A history can conform although its ticks do not name whom the rule names: that they do is for the scheduler to show.
pub fn conforming_is_not_enough()
    ensures { ConformingIsNotEnough }
{}
