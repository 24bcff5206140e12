//! What a choosing rule is shown.
ghost use Rattle.std.specs.Prelude.{◌≡◌};
ghost use Rattle.choosing.specs.Balance.{spent};

/// What is known of a task, a server or a dual at some time, and what a choosing rule is shown of a server and its clients.
/// The share of nothing is the default.
#[derive(Clone, Copy, PartialEq, Eq, Debug, Default)]
pub struct Share {
    /// the ticks left of the present job
    pub left: u32,
    /// the ticks that each frame brings
    pub rate: u16,
    /// the frame at whose start the present job is due
    pub deadline: u32,
}

impl Share {
    /// Takes one tick, if one is left.
    pub fn spend(&mut self)
        ensures { self.new ≡ spent self.old }
    {
        self.left = self.left.saturating_sub(1);
    }
}
