//! What operators on sets and lists answer.

use crate::operands::{bounds, items_of, scalar_of, shown, word_of};
use mos_text::Scalar;
use mos_value::{
    Items, ValueFault, add_to_list, add_to_set, chain_of, has_item, inter_of, minus_of, same_list,
    same_set, set_of, show_one, take_from_set, union_of,
};
use std::alloc::{AllocError, Global};

fn made_of(alloc: Global, subject: &str, left: &str, right: &str) -> Result<Items, ValueFault> {
    let (a, b) = (items_of(alloc, left)?, items_of(alloc, right)?);
    match subject {
        "union" => union_of(alloc, &a, &b),
        "inter" => inter_of(alloc, &a, &b),
        "minus" => minus_of(alloc, &a, &b),
        "chain" => chain_of(alloc, &a, &b),
        _ => set_of(alloc, &a),
    }
}

/// The collection that an operator makes, or its fault.
pub fn made(alloc: Global, subject: &str, left: &str, right: &str) -> Result<String, AllocError> {
    match made_of(alloc, subject, left, right) {
        Ok(items) => shown(alloc, &items),
        Err(fault) => String::from_str(alloc, word_of(fault)),
    }
}

fn change(alloc: Global, subject: &str, to: &mut Items, other: &Items) -> Result<(), ValueFault> {
    match subject {
        "add" => add_to_set(alloc, to, other),
        "take" => take_from_set(to, other),
        _ => add_to_list(alloc, to, other),
    }
}

fn changed_with(
    alloc: Global,
    subject: &str,
    mut to: Items,
    other: &Items,
) -> Result<String, AllocError> {
    let answer = match change(alloc, subject, &mut to, other) {
        Ok(()) => "done",
        Err(fault) => word_of(fault),
    };
    let after = shown(alloc, &to)?;
    format!(in alloc; "{answer}, {}", after.as_str())
}

/// What an operator that changes its left operand answers, and what that is afterwards.
pub fn changed(
    alloc: Global,
    subject: &str,
    left: &str,
    right: &str,
) -> Result<String, AllocError> {
    match (items_of(alloc, left), items_of(alloc, right)) {
        (Ok(to), Ok(other)) => changed_with(alloc, subject, to, &other),
        _ => String::from_str(alloc, "no operands"),
    }
}

fn tell(alloc: Global, subject: &str, left: &str, right: &str) -> Result<bool, ValueFault> {
    let a = items_of(alloc, left)?;
    match subject {
        "has" => return Ok(has_item(&a, &scalar_of(alloc, right.trim())?)),
        "set-has" => {
            let set = set_of(alloc, &a)?;
            return Ok(has_item(&set, &scalar_of(alloc, right.trim())?));
        }
        _ => {}
    }
    let b = items_of(alloc, right)?;
    Ok(if subject == "same-set" {
        same_set(&a, &b)
    } else {
        same_list(&a, &b)
    })
}

/// What a question about collections is answered.
pub fn told(alloc: Global, subject: &str, left: &str, right: &str) -> Result<String, AllocError> {
    match tell(alloc, subject, left, right) {
        Ok(truth) => format!(in alloc; "{truth}"),
        Err(fault) => String::from_str(alloc, word_of(fault)),
    }
}

/// Which members a set grows by.
#[derive(Clone, Copy)]
enum Members {
    /// Integers, each behind the one before.
    Rising,
    /// Integers of which none stands beside the one before.
    Mixed,
    /// The decimal texts of integers.
    Texts,
}

fn members_of(subject: &str) -> Members {
    match subject {
        "grow" => Members::Rising,
        "grow-mixed" => Members::Mixed,
        _ => Members::Texts,
    }
}

/// The member that stands for a number.
fn member_of(alloc: Global, members: Members, number: i32) -> Result<Scalar, ValueFault> {
    match members {
        Members::Rising => Ok(Scalar::Int(number)),
        Members::Mixed => Ok(Scalar::Int(number.wrapping_mul(7919))),
        Members::Texts => Ok(Scalar::Str(show_one(alloc, &Scalar::Int(number))?)),
    }
}

/// A set that grew by one member at a time.
fn grow(alloc: Global, members: Members, first: i32, last: i32) -> Result<Items, ValueFault> {
    let mut set = Items::new(alloc);
    for number in first..last {
        let mut one = Items::new(alloc);
        one.push(member_of(alloc, members, number)?)?;
        add_to_set(alloc, &mut set, &one)?;
    }
    Ok(set)
}

/// How many of the members the set has.
fn found(
    alloc: Global,
    set: &Items,
    members: Members,
    first: i32,
    last: i32,
) -> Result<u32, ValueFault> {
    let mut count: u32 = 0;
    for number in first..last {
        let member = member_of(alloc, members, number)?;
        count = count.saturating_add(has_item(set, &member) as u32);
    }
    Ok(count)
}

fn grow_and_ask(alloc: Global, subject: &str, range: &str) -> Result<(usize, u32), ValueFault> {
    let (members, (first, last)) = (members_of(subject), bounds(range));
    let set = grow(alloc, members, first, last)?;
    Ok((set.len(), found(alloc, &set, members, first, last)?))
}

/// How many members a set has that grew by one at a time, and how many of them are found in it.
pub fn grown(alloc: Global, subject: &str, range: &str) -> Result<String, AllocError> {
    match grow_and_ask(alloc, subject, range) {
        Ok((many, found)) => format!(in alloc; "{many} members, {found} found"),
        Err(fault) => String::from_str(alloc, word_of(fault)),
    }
}
