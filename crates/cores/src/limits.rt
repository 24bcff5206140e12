//! How many cores and tasks there are room for.

/// The most cores.
pub const CORES: usize = 16;

/// The most tasks, idle ones included.
pub const TASKS: usize = 80;
