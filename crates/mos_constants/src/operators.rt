//! What operators make of constant values.
ghost use Rattle.std.specs.Prelude.{◌≡◌};
ghost use Rattle.mos_text.specs.declared.scalar.Scalar.TheVariants.{Int, Bool as Truth};
ghost use Rattle.mos_constants.specs.Found.{Finds};
ghost use Rattle.mos_constants.specs.Operators as spec;

use crate::found::{integer_found, truth_value};
use crate::no_value::NoValue;
use mos_sorts::{Operation, Value};
use mos_text::Scalar;
use mos_tree::UnaryOperator;
use mos_value::{
    Items, chain_of, difference_of, has_item, inter_of, join_of, minus_of, negative_of, order_of,
    product_of, quotient_of, range_set, remainder_of, same_one, same_set, same_value, show_one,
    sum_of, union_of,
};
use std::alloc::Global;

/// A comparison of two values without parts, where they have it.
fn compared(operation: Operation, a: &Scalar, b: &Scalar) -> Option<bool>
    ensures { result ≡ spec.compared operation a.now b.now }
{
    match operation {
        Operation::Equal => same_value(a, b),
        Operation::NotEqual => same_value(a, b).map(|same| !same),
        Operation::Less => order_of(a, b).map(|order| order.is_lt()),
        Operation::AtMost => order_of(a, b).map(|order| !order.is_gt()),
        Operation::Greater => order_of(a, b).map(|order| order.is_gt()),
        Operation::AtLeast => order_of(a, b).map(|order| !order.is_lt()),
        _ => None,
    }
}

/// The truth of a comparison.
fn comparison(operation: Operation, a: &Scalar, b: &Scalar) -> Result<Value, NoValue>
    ensures { Finds result (spec.comparison operation a.now b.now) }
{
    match compared(operation, a, b) {
        Some(truth) => Ok(truth_value(truth)),
        None => Err(NoValue::Fault),
    }
}

/// `=` and `<>`, by whether the two are the same.
fn by_sameness(operation: Operation, same: bool) -> Result<Value, NoValue>
    ensures { Finds result (spec.by_sameness operation same) }
{
    match operation {
        Operation::Equal => Ok(truth_value(same)),
        Operation::NotEqual => Ok(truth_value(!same)),
        _ => Err(NoValue::Fault),
    }
}

/// `in` and `not in`, by whether the one is in the other.
fn by_membership(operation: Operation, is: bool) -> Result<Value, NoValue>
    ensures { Finds result (spec.by_membership operation is) }
{
    match operation {
        Operation::In => Ok(truth_value(is)),
        Operation::NotIn => Ok(truth_value(!is)),
        _ => Err(NoValue::Fault),
    }
}

fn of_integers(operation: Operation, a: i32, b: i32) -> Result<Value, NoValue>
    ensures { Finds result (spec.of_integers operation a b) }
{
    match operation {
        Operation::Times => integer_found(product_of(a, b)),
        Operation::Div => integer_found(quotient_of(a, b)),
        Operation::Mod => integer_found(remainder_of(a, b)),
        Operation::Add => integer_found(sum_of(a, b)),
        Operation::Subtract => integer_found(difference_of(a, b)),
        Operation::Span => Ok(Value::Range(a, b)),
        _ => comparison(operation, &Scalar::Int(a), &Scalar::Int(b)),
    }
}

fn of_truths(operation: Operation, a: bool, b: bool) -> Result<Value, NoValue>
    ensures { Finds result (spec.of_truths operation a b) }
{
    match operation {
        Operation::And => Ok(truth_value(a && b)),
        Operation::Or => Ok(truth_value(a || b)),
        _ => comparison(operation, &Scalar::Bool(a), &Scalar::Bool(b)),
    }
}

/// Between two values without parts.
fn of_scalars(alloc: Global, operation: Operation, a: &Scalar, b: &Scalar) -> Result<Value, NoValue>
    ensures { Finds result (spec.of_scalars operation a.now b.now) }
{
    match (operation, a, b) {
        (_, Scalar::Int(a), Scalar::Int(b)) => of_integers(operation, *a, *b),
        (_, Scalar::Bool(a), Scalar::Bool(b)) => of_truths(operation, *a, *b),
        (Operation::Join, Scalar::Str(a), Scalar::Str(b)) => {
            Ok(Value::One(Scalar::Str(join_of(alloc, a, b)?)))
        }
        _ => comparison(operation, a, b),
    }
}

fn of_sets(alloc: Global, operation: Operation, a: &Items, b: &Items) -> Result<Value, NoValue>
    ensures { Finds result (spec.of_sets operation a.now b.now) }
{
    match operation {
        Operation::Unite => Ok(Value::Set(union_of(alloc, a, b)?)),
        Operation::Meet => Ok(Value::Set(inter_of(alloc, a, b)?)),
        Operation::Without => Ok(Value::Set(minus_of(alloc, a, b)?)),
        _ => by_sameness(operation, same_set(a, b)),
    }
}

/// Whether the items are the same, in the same order.
fn same_items(a: &[Scalar], b: &[Scalar]) -> bool
    ensures { result ≡ spec.same_items a.now b.now }
{
    let mut rest = b;
    for item in a {
        let Some((other, others)) = rest.split_first() else {
            return false;
        };
        if !same_one(item, other) {
            return false;
        }
        rest = others;
    }
    rest.is_empty()
}

fn of_lists(alloc: Global, operation: Operation, a: &Items, b: &Items) -> Result<Value, NoValue>
    ensures { Finds result (spec.of_lists operation a.now b.now) }
{
    match operation {
        Operation::Chain => Ok(Value::List(chain_of(alloc, a, b)?)),
        _ => by_sameness(operation, same_items(a.as_slice(), b.as_slice())),
    }
}

fn same_bounds(a: (i32, i32), b: (i32, i32)) -> bool
    ensures { result ≡ spec.same_bounds a b }
{
    a.0 == b.0 && a.1 == b.1
}

fn are_empty(a: (i32, i32), b: (i32, i32)) -> bool
    ensures { result ≡ spec.are_empty a b }
{
    a.1 < a.0 && b.1 < b.0
}

/// Whether two ranges have the same integers.
fn same_integers(a: (i32, i32), b: (i32, i32)) -> bool
    ensures { result ≡ spec.same_integers a b }
{
    same_bounds(a, b) || are_empty(a, b)
}

/// Whether the value is an integer of the range.
fn is_within(first: i32, last: i32, a: &Scalar) -> bool
    ensures { result ≡ spec.is_within first last a.now }
{
    match a {
        Scalar::Int(number) => first <= *number && *number <= last,
        _ => false,
    }
}

/// What an operator makes of two values.
pub(crate) fn binary_value(
    alloc: Global,
    operation: Operation,
    a: &Value,
    b: &Value,
) -> Result<Value, NoValue>
    ensures { Finds result (spec.binary_value operation a.now b.now) }
{
    match (a, b) {
        (Value::One(a), Value::One(b)) => of_scalars(alloc, operation, a, b),
        (Value::One(a), Value::Set(members)) => by_membership(operation, has_item(members, a)),
        (Value::One(a), Value::Range(first, last)) => {
            by_membership(operation, is_within(*first, *last, a))
        }
        (Value::Set(a), Value::Set(b)) => of_sets(alloc, operation, a, b),
        (Value::List(a), Value::List(b)) => of_lists(alloc, operation, a, b),
        (Value::Range(a, b), Value::Range(c, d)) => {
            by_sameness(operation, same_integers((*a, *b), (*c, *d)))
        }
        _ => Err(NoValue::Fault),
    }
}

/// Whether the left value decides alone.
pub(crate) fn decides(operation: Operation, a: &Value) -> bool
    ensures { result ≡ spec.decides operation a.now }
{
    match (operation, a) {
        (Operation::And, Value::One(Scalar::Bool(truth))) => !*truth,
        (Operation::Or, Value::One(Scalar::Bool(truth))) => *truth,
        _ => false,
    }
}

/// What an operator before a value makes of it.
pub(crate) fn unary_value(operator: UnaryOperator, a: &Value) -> Result<Value, NoValue>
    ensures { Finds result (spec.unary_value operator a.now) }
{
    match (operator, a) {
        (UnaryOperator::Minus, Value::One(Scalar::Int(number))) => {
            integer_found(negative_of(*number))
        }
        (UnaryOperator::Plus, Value::One(Scalar::Int(number))) => {
            Ok(Value::One(Scalar::Int(*number)))
        }
        (UnaryOperator::Not, Value::One(Scalar::Bool(truth))) => Ok(truth_value(!*truth)),
        _ => Err(NoValue::Fault),
    }
}

/// A range made into a set.
pub(crate) fn set_value(alloc: Global, a: &Value) -> Result<Value, NoValue>
    ensures { Finds result (spec.set_value a.now) }
{
    match a {
        Value::Range(first, last) => Ok(Value::Set(range_set(alloc, *first, *last)?)),
        _ => Err(NoValue::Fault),
    }
}

/// The printed form of a value without parts.
pub(crate) fn printed_value(alloc: Global, a: &Value) -> Result<Value, NoValue>
    ensures { Finds result (spec.printed_value a.now) }
{
    match a {
        Value::One(a) => Ok(Value::One(Scalar::Str(show_one(alloc, a)?))),
        _ => Err(NoValue::Fault),
    }
}
