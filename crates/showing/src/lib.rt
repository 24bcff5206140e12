//! A level of a plan as text: a line for each server, with its rate and its clients.
#![tactic(auto)]

mod level;
mod names;

pub use level::LevelText;
pub use names::{TaskNames, TaskText};
