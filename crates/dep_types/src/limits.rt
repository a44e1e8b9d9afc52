//! The greatest moment.

/// The last second of the year 9999, in seconds since 1970: no clock and no text of a moment goes
/// further.
pub const GREATEST_MOMENT: u64 = 253_402_300_799;
