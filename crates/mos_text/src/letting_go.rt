//! Letting go of a value, in one place.

/// Drops a value that has no place: what dropping it takes is paid here alone, once a type.
pub fn let_go<T: Drop>(_value: T) {}
