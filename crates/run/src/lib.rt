//! The scheduler: opening a run, announcing jobs, ticking, and asking.
#![tactic(auto)]

mod announcing;
mod asking;
mod call;
mod clients;
mod counting;
mod filling;
mod frame;
mod level;
mod naming;
mod refusal;
mod refusing;
mod renewing;
mod replaying;
mod run;
mod spending;
mod state;
mod task;
mod ticking;
mod turning;

pub use call::{Answer, Call, CoreList, Question, Reply};
pub use refusal::Refusal;
pub use replaying::replay;
pub use run::Run;

#[cfg(test)]
mod tests;
