//! Spans of time in nanoseconds, the unit of every moment and duration.

/// A millisecond.
pub const MILLISECOND: u64 = 1_000_000;

/// A second.
pub const SECOND: u64 = 1_000_000_000;

/// A minute.
pub const MINUTE: u64 = 60_000_000_000;

/// An hour.
pub const HOUR: u64 = 3_600_000_000_000;
