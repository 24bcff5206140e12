//! The limit of a choosing rule.

/// The most clients among which a rule chooses: a run has at most so many tasks.
pub const CLIENTS: usize = 80;
