//! How large a collection may be.

/// The most items of a set, a list or an array.
pub const COLLECTION_LIMIT: usize = 1_000_000;
