//! The three passes of a placing: who stays, who comes back, and the rest.
ghost use Rattle.std.specs.Prelude.{◌≡◌, ◌<◌, ◌≤◌, None, fold, position, replicate, take, slice_index_or};
ghost use Rattle.cores.specs.Placing.{claims, is_none, keeps, seat, seated, settles, tables};

use crate::limits::{CORES, TASKS};
use crate::place::Cores;

/// An entry of a table; none past its end.
fn entry(table: &[Option<u8>], at: u8) -> Option<u8>
    ensures { result ≡ slice_index_or table.now at None }
{
    table.get(usize::from(at)).copied().flatten()
}

impl Cores {
    /// Whether a task is on the core that it last ran on.
    fn is_seated(&self, task: u8) -> bool
        ensures { result ≡ seated self.now task }
    {
        entry(&self.last, task)
            .and_then(|core| entry(&self.held, core))
            .is_some_and(|there| task == there)
    }

    /// A task takes its last core, if that is one of the first `cores` and free.
    fn claim(&mut self, task: u8, cores: usize)
        ensures { self.new ≡ tables self.old.last (claims self.old.last cores self.old.held task) }
    {
        if let Some(core) = entry(&self.last, task) {
            let at = usize::from(core);
            if at < cores && self.held.get(at).is_some_and(|held| held.is_none()) {
                self.held[at] = Some(task);
            }
        }
    }

    /// Frees the cores. The tasks that the tick before named too keep theirs: each is still held on the core that it last ran
    /// on.
    pub(crate) fn keep(&mut self, named: &[u8], cores: usize)
        ensures { self.new ≡ tables self.old.last (fold (keeps self.old cores) (replicate 16 None) named.now) }
    {
        let before = *self;
        self.held = [None; CORES];
        for task in named {
            if before.is_seated(*task) {
                self.claim(*task, cores);
            }
        }
    }

    /// The others take their last cores, if these are free.
    pub(crate) fn come_back(&mut self, named: &[u8], cores: usize)
        ensures { self.new ≡ tables self.old.last (fold (claims self.old.last cores) self.old.held named.now) }
    {
        for task in named {
            self.claim(*task, cores);
        }
    }

    /// The lowest free one of the first `cores`.
    fn free_core(&self, cores: usize) -> Option<usize>
        ensures { result ≡ position is_none (take cores self.now.held) }
    {
        self.held.iter().take(cores).position(|held| held.is_none())
    }

    /// Puts a task on a core, and records that.
    fn seat(&mut self, task: u8, core: usize)
        requires { (task < 80) × (core < 16) }
        ensures { self.new ≡ seat self.old task core }
    {
        self.held[core] = Some(task);
        self.last[usize::from(task)] = Some(core as u8);
    }

    /// A task that waits takes the lowest free core.
    fn settle(&mut self, task: u8, cores: usize)
        requires { cores ≤ 16 }
        ensures { self.new ≡ settles cores self.old task }
    {
        if usize::from(task) < TASKS && !self.is_seated(task) {
            if let Some(core) = self.free_core(cores) {
                self.seat(task, core);
            }
        }
    }

    /// The rest take the free cores in rising order.
    pub(crate) fn settle_rest(&mut self, named: &[u8], cores: usize)
        requires { cores ≤ 16 }
        ensures { self.new ≡ fold (settles cores) self.old named.now }
    {
        for task in named {
            self.settle(*task, cores);
        }
    }
}
