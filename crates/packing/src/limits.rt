//! The limits of a load and of its plan.

/// The most cores.
pub const CORES: u32 = 16;

/// The most parts in one whole core.
pub const UNIT: u32 = 1000;

/// The most frames of a run.
pub const FRAMES: u32 = 65535;

/// The most tasks of a sheet.
pub const SHEET_TASKS: usize = 64;

/// The most tasks, idle ones included: there are never more idle tasks than cores.
pub const TASKS: usize = 80;

/// The most servers of a level: two of one level exceed the unit, so there are fewer than twice as many as cores.
pub const SERVERS: usize = 31;

/// The most levels: at most 31, 16, 8, 4 and 2 servers, and two or fewer are roots.
pub const LEVELS: usize = 5;
