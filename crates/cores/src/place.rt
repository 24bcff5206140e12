//! The record of the cores, and the placing of a tick.
ghost use Rattle.std.specs.Prelude.{◌≡◌, ◌≤◌};
ghost use Rattle.cores.specs.Laws.{Lawful, Listed, Recorded};
ghost use Rattle.cores.specs.Placing.{blank, limited, placed, written};

use crate::limits::{CORES, TASKS};

/// Where each task last ran, and what each core holds since the last tick.
#[derive(Clone, Copy)]
pub struct Cores {
    /// the core that each task last ran on
    pub(crate) last: [Option<u8>; TASKS],
    /// the task that the last tick put on each core
    pub(crate) held: [Option<u8>; CORES],
}

impl Cores {
    /// No task has run.
    pub fn new() -> Cores
        ensures blank { result ≡ blank }
        ensures recorded { Recorded result }
    {
        Cores {
            last: [None; TASKS],
            held: [None; CORES],
        }
    }

    /// Places the tasks that a tick names, in the order of their list, on so many cores, at most 16, and writes the task of
    /// each core into the core list. What is no task, and what finds no core, is not placed; a core without a task, and what
    /// stands after the cores, is left as it is in the core list.
    pub fn place(&mut self, named: &[u8], cores: usize, list: &mut [u8])
        ensures placed { self.new ≡ placed self.old named.now (limited cores) }
        ensures list { list.new ≡ written self.new.held list.old }
        ensures lawful { Lawful self.old named.now (limited cores) self.new }
        ensures listed { Listed named.now (limited cores) self.new list.old list.new }
    {
        let cores = cores.min(CORES);
        self.keep(named, cores);
        self.come_back(named, cores);
        self.settle_rest(named, cores);
        self.write(list);
    }

    /// Writes the task of each core into the core list, as far as the list goes.
    fn write(&self, list: &mut [u8])
        ensures { list.new ≡ written self.now.held list.old }
    {
        for (core, task) in self.held.iter().enumerate() {
            if let Some(task) = task {
                if core < list.len() {
                    list[core] = *task;
                }
            }
        }
    }
}
