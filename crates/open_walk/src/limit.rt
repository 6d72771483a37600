//! How far the walk goes.

/// The number of segments after which the walk is cut.
pub const MOST_SEGMENTS: u32 = 100_000;
