//! What operators on ranges answer.

use crate::operands::{bounds, shown, word_of};
use mos_value::{ValueFault, range_has, range_set, range_size, same_range};
use std::alloc::{AllocError, Global};

/// The set of a range, or its size.
pub fn sized(alloc: Global, subject: &str, range: &str) -> Result<String, AllocError> {
    let (a, b) = bounds(range);
    if subject == "range-set" {
        match range_set(alloc, a, b) {
            Ok(members) => shown(alloc, &members),
            Err(fault) => String::from_str(alloc, word_of(fault)),
        }
    } else {
        match range_size(a, b) {
            Ok(size) => format!(in alloc; "{size}"),
            Err(kind) => String::from_str(alloc, word_of(ValueFault::Fault(kind))),
        }
    }
}

/// Whether a range has an integer, or two ranges are the same.
pub fn told(alloc: Global, subject: &str, left: &str, right: &str) -> Result<String, AllocError> {
    let range = bounds(left);
    let truth = if subject == "range-has" {
        range_has(range.0, range.1, right.trim().parse().unwrap_or(0))
    } else {
        same_range(range, bounds(right))
    };
    format!(in alloc; "{truth}")
}
