//! What operators on integers, and comparisons and printed forms of scalars answer.

use crate::operands::{begun, scalar_of, word_of};
use mos_text::{FaultKind, Scalar};
use mos_value::{
    ValueFault, difference_of, negative_of, order_of, product_of, quotient_of, remainder_of,
    same_one, same_value, show_one, sum_of, text_below,
};
use std::alloc::{AllocError, Global};

fn result_of(subject: &str, a: i32, b: i32) -> Result<i32, FaultKind> {
    match subject {
        "sum" => sum_of(a, b),
        "difference" => difference_of(a, b),
        "product" => product_of(a, b),
        "quotient" => quotient_of(a, b),
        "remainder" => remainder_of(a, b),
        _ => negative_of(a),
    }
}

/// The integer that an operator makes of one or two, or its fault.
pub fn found(alloc: Global, subject: &str, operands: &str) -> Result<String, AllocError> {
    let (a, b) = operands.split_once(' ').unwrap_or((operands, "0"));
    match result_of(subject, a.parse().unwrap_or(0), b.parse().unwrap_or(0)) {
        Ok(number) => format!(in alloc; "{number}"),
        Err(kind) => String::from_str(alloc, word_of(ValueFault::Fault(kind))),
    }
}

/// The printed form of a scalar: its length, and its first twenty bytes.
pub fn printed(alloc: Global, word: &str) -> Result<String, AllocError> {
    let Ok(scalar) = scalar_of(alloc, word) else {
        return String::from_str(alloc, "no operand");
    };
    match show_one(alloc, &scalar) {
        Ok(text) => begun(alloc, &text),
        Err(fault) => String::from_str(alloc, word_of(fault)),
    }
}

/// Whether the text of the left word is below that of the right one.
fn is_below(a: &Scalar, b: &Scalar) -> bool {
    match (a, b) {
        (Scalar::Str(a), Scalar::Str(b)) => text_below(a, b),
        _ => false,
    }
}

/// Whether two scalars are the same, asked in each way, how they are ordered, and whether the one text is below the other.
pub fn compared(alloc: Global, left: &str, right: &str) -> Result<String, AllocError> {
    match (
        scalar_of(alloc, left.trim()),
        scalar_of(alloc, right.trim()),
    ) {
        (Ok(a), Ok(b)) => {
            let (same, below) = (same_one(&a, &b), is_below(&a, &b));
            let (of_a_kind, order) = (same_value(&a, &b), order_of(&a, &b));
            format!(in alloc; "same {same} {of_a_kind:?}, order {order:?}, below {below}")
        }
        _ => String::from_str(alloc, "no operands"),
    }
}
