//! What the tasks of a load are called.
ghost use Rattle.planner.specs.Names.{numbered};

use showing::TaskNames;
use std::fmt;

/// The tasks of a load by their numbers: its own, and then the idle ones.
#[derive(Clone, Copy)]
pub(crate) struct Numbered {
    /// how many tasks the load has
    pub own: usize,
}

impl TaskNames for Numbered {
    ghost name = { λ tasks task. numbered tasks.own task };

    fn write_name<W: fmt::Write>(&self, f: &mut fmt::Formatter<W>, task: usize) -> fmt::Result {
        if task < self.own {
            write!(f, "task {task}")
        } else {
            write!(f, "idle task {task}")
        }
    }
}
