//! Packing the tasks of a load into servers, level by level, by a fitting rule: the plan of a run.
#![tactic(auto)]

mod build;
mod fitting;
mod level;
mod limits;
mod load;
mod opening;
mod plan;
mod refusal;
pub mod rules;
mod table;

pub use fitting::Fitting;
pub use level::{Level, is_home};
pub use limits::{CORES, FRAMES, LEVELS, SERVERS, SHEET_TASKS, TASKS, UNIT};
pub use load::Load;
pub use opening::{Opening, OpeningRefusal};
pub use plan::Plan;
pub use refusal::Refusal;

#[cfg(test)]
mod tests;
