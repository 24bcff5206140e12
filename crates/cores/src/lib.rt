//! The tasks that a tick names, each on its core, and how many tasks a tick preempts.
#![tactic(auto)]

mod count;
mod limits;
mod passes;
mod place;

pub use count::preempted;
pub use limits::{CORES, TASKS};
pub use place::Cores;

#[cfg(test)]
mod tests;
