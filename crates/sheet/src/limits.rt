//! The limits of a sheet.

/// The most bytes.
pub const LONGEST: usize = 8192;

/// The most bytes of a name.
pub const NAME: usize = 12;

/// The most digits of a number.
pub(crate) const DIGITS: usize = 5;
