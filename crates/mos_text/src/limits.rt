//! The limits that several layers share.

/// The longest source, in bytes, and so the longest text that stands in one.
pub const SOURCE_LIMIT: u32 = 1_048_576;

/// The longest text that a run makes, in bytes.
pub const TEXT_LIMIT: usize = 1_000_000;

/// The longest output of a run, in bytes.
pub const OUTPUT_LIMIT: usize = 1_048_576;
