//! The theorems of runs, for every lawful fitting rule and all lawful choosing rules. There is nothing to run: each function
//! carries the theorem of its name, so that the check demands its proof.
ghost use Rattle.levels.specs.Theorems.{NamedIsChosen, EveryRootRuns, EveryPlanOpens, EveryStateIsSound, RulesAreAskedInBalance, EveryTickIsFull, EveryLevelIsFull, NoDeadlineIsMissed, EveryJobIsServed, PreemptionsAreFew, RunsThereAre};

/// An item is named exactly if its home runs and the rule names it there, by its place among the clients.
pub fn named_is_chosen()
    ensures { NamedIsChosen }
{}

/// A root runs in every tick.
pub fn every_root_runs()
    ensures { EveryRootRuns }
{}

/// The plan that a lawful fitting rule makes of tasks that fill the cores opens a run.
pub fn every_plan_opens()
    ensures { EveryPlanOpens }
{}

/// In every state of a run all servers and their clients are as the argument needs them.
pub fn every_state_is_sound()
    ensures { EveryStateIsSound }
{}

/// Whenever a rule is asked, the server that it is asked about and its clients are balanced.
pub fn rules_are_asked_in_balance()
    ensures { RulesAreAskedInBalance }
{}

/// In each tick as many tasks run as there are cores, and each of them has left.
pub fn every_tick_is_full()
    ensures { EveryTickIsFull }
{}

/// In each level as many servers run as their rates fill units, and each of them has left.
pub fn every_level_is_full()
    ensures { EveryLevelIsFull }
{}

/// When the deadline of a task comes, nothing is left of its job.
pub fn no_deadline_is_missed()
    ensures { NoDeadlineIsMissed }
{}

/// When the deadline of a task comes, it has run for its rate in each frame of its job, and never for more.
pub fn every_job_is_served()
    ensures { EveryJobIsServed }
{}

/// Under a rule that goes on with the client it named there are at most 2 × reductions + 1 preemptions for each job.
pub fn preemptions_are_few()
    ensures { PreemptionsAreFew }
{}

/// There are runs that go on, so that the theorems speak of something; one is worked out tick by tick.
pub fn runs_there_are()
    ensures { RunsThereAre }
{}
