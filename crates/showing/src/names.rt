//! What the tasks of a plan are called where it is shown.
ghost use Rattle.std.specs.Fmt.{WritesOnOk};
ghost use Rattle.std.specs.Prelude.{ℕ, List, Some};

use std::fmt;

/// What the tasks of a plan are called where it is shown.
pub trait TaskNames {
    /// The text that a task is called by.
    ghost name: { Self → ℕ → List ℕ };

    /// Writes what a task is called.
    fn write_name<W: fmt::Write>(&self, f: &mut fmt::Formatter<W>, task: usize) -> fmt::Result
        ensures { WritesOnOk W.write_str_gives f.old result (name self.now task) f.new };
}

/// What a task is called, to be printed.
#[derive(Clone, Copy)]
pub struct TaskText<'a, N> {
    pub names: &'a N,
    pub task: usize,
}

impl<'a, N: TaskNames> fmt::Display for TaskText<'a, N> {
    ghost output = { λ shown. Some (N.name shown.names.now shown.task) };

    fn fmt<W: fmt::Write>(&self, f: &mut fmt::Formatter<W>) -> fmt::Result {
        self.names.write_name(f, self.task)
    }
}
