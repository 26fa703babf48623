//! The group of the operators on values.

use crate::{collections, numbers, operands, ranges};
use std::alloc::{AllocError, Global};

/// The answer to a case: an operator and its operands, with a bar between two of them.
pub fn answer(alloc: Global, case: &str) -> Result<String, AllocError> {
    let (subject, both) = case.split_once(' ').unwrap_or((case, ""));
    let (left, right) = both.split_once('|').unwrap_or((both, ""));
    match subject {
        "union" | "inter" | "minus" | "chain" | "set" => {
            collections::made(alloc, subject, left, right)
        }
        "add" | "take" | "append" => collections::changed(alloc, subject, left, right),
        "grow" | "grow-mixed" | "grow-texts" => collections::grown(alloc, subject, left),
        "has" | "set-has" | "same-set" | "same-list" => collections::told(
            alloc, subject, left, right,
        ),
        "range-set" | "range-size" => ranges::sized(alloc, subject, left),
        "range-has" | "same-range" => ranges::told(alloc, subject, left, right),
        "join" => operands::joined(alloc, left, right),
        "sum" | "difference" | "product" | "quotient" | "remainder" | "negative" => {
            numbers::found(alloc, subject, both)
        }
        "show" => numbers::printed(alloc, both),
        "compare" => numbers::compared(alloc, left, right),
        _ => String::from_str(alloc, "no such subject"),
    }
}
