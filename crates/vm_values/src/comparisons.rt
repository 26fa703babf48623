//! Comparisons of values, and truths.
ghost use Rattle.std.specs.Prelude.{◌≡◌, [], ◌∷◌};
ghost use Rattle.mos_value.specs.Answers as how;
ghost use Rattle.mos_value.specs.Ranges.{range_members};
ghost use Rattle.vm_lib.specs.Operations as spec;
ghost use Rattle.vm_values.specs.Given.{result_of};
ghost use Rattle.vm_values.specs.HeldValues.{order_in};

use crate::answer::{Answer, truth};
use crate::value::{Form, Value};
use mos_text::Scalar;
use mos_value::laws::laws_of_sets;
use mos_value::{has_item, order_of, same_one, same_range, same_set, same_value};
use std::cmp::Ordering;

/// Whether two values of one kind are the same.
pub fn equal(left: &Value, right: &Value) -> Answer
    ensures { result_of result ≡ spec.done (spec.compare how.equal) (left.now ∷ right.now ∷ []) }
{
    truth(same_values(left, right))
}

/// Whether two values of one kind are not the same.
pub fn differ(left: &Value, right: &Value) -> Answer
    ensures { result_of result
        ≡ spec.done (spec.compare how.not_equal) (left.now ∷ right.now ∷ []) }
{
    match same_values(left, right) {
        Some(same) => truth(Some(!same)),
        None => truth(None),
    }
}

/// Whether the first of two integers or texts is below the second.
pub fn less(left: &Value, right: &Value) -> Answer
    ensures { result_of result ≡ spec.done (spec.compare how.less) (left.now ∷ right.now ∷ []) }
{
    match order_in(left, right) {
        Some(order) => truth(Some(order.is_lt())),
        None => truth(None),
    }
}

/// Whether the first of two integers or texts is not above the second.
pub fn at_most(left: &Value, right: &Value) -> Answer
    ensures { result_of result ≡ spec.done (spec.compare how.at_most) (left.now ∷ right.now ∷ []) }
{
    match order_in(left, right) {
        Some(order) => truth(Some(!order.is_gt())),
        None => truth(None),
    }
}

/// Whether the first of two integers or texts is above the second.
pub fn greater(left: &Value, right: &Value) -> Answer
    ensures { result_of result ≡ spec.done (spec.compare how.greater) (left.now ∷ right.now ∷ []) }
{
    match order_in(left, right) {
        Some(order) => truth(Some(order.is_gt())),
        None => truth(None),
    }
}

/// Whether the first of two integers or texts is not below the second.
pub fn at_least(left: &Value, right: &Value) -> Answer
    ensures { result_of result ≡ spec.done (spec.compare how.at_least) (left.now ∷ right.now ∷ []) }
{
    match order_in(left, right) {
        Some(order) => truth(Some(!order.is_lt())),
        None => truth(None),
    }
}

/// How two integers or two texts are ordered.
fn order_in(left: &Value, right: &Value) -> Option<Ordering>
    ensures { result ≡ order_in left.now right.now }
{
    match (&left.form, &right.form) {
        (Form::One(left), Form::One(right)) => order_of(left, right),
        _ => None,
    }
}

/// Whether two values are the same, where they are of one kind.
fn same_values(left: &Value, right: &Value) -> Option<bool>
    ensures { result ≡ spec.same_values left.now right.now }
{
    match (&left.form, &right.form) {
        (Form::One(a), Form::One(b)) => same_value(a, b),
        (Form::SetOf(_, a), Form::SetOf(_, b)) => Some(same_set(a, b)),
        (Form::ListOf(_, a), Form::ListOf(_, b)) => Some(same_items(a.as_slice(), b.as_slice())),
        (Form::Range(a, b), Form::Range(c, d)) => Some(same_ranges((*a, *b), (*c, *d))),
        (Form::Fields(_, a), Form::Fields(_, b)) => Some(same_items(a.as_slice(), b.as_slice())),
        _ => None,
    }
}

/// Whether two lists have the same items in the same order.
fn same_items(a: &[Scalar], b: &[Scalar]) -> bool
    ensures { result ≡ spec.same_items a.now b.now }
{
    let mut rest = b;
    for item in a {
        let Some((other, others)) = rest.split_first() else {
            return false;
        };
        if !same_one(item, other) {
            return false;
        }
        rest = others;
    }
    rest.is_empty()
}

/// Whether two ranges have the same integers.
fn same_ranges(a: (i32, i32), b: (i32, i32)) -> bool
    ensures { result ≡ spec.same_items (range_members a.0 a.1) (range_members b.0 b.1) }
{
    laws_of_sets();
    same_range(a, b)
}

/// Whether the first is a member of the second, a set or range.
pub fn is_in(left: &Value, right: &Value) -> Answer
    ensures { result_of result ≡ spec.done spec.is_in (left.now ∷ right.now ∷ []) }
{
    match left.as_scalar() {
        Some(left) => truth(member_of(left, right)),
        None => Answer::Sticks,
    }
}

fn member_of(x: &Scalar, value: &Value) -> Option<bool>
    ensures { result ≡ spec.member_of x.now value.now }
{
    match (x, &value.form) {
        (x, Form::SetOf(_, members)) => Some(has_item(members, x)),
        (Scalar::Int(number), Form::Range(first, last)) => Some(
            *first <= *number && *number <= *last,
        ),
        _ => None,
    }
}

/// The other truth.
pub fn reverse_truth(value: &Value) -> Answer
    ensures { result_of result ≡ spec.done spec.reverse_truth (value.now ∷ []) }
{
    match value.as_truth() {
        Some(truth) => Answer::Gives(Value::one(Scalar::Bool(!truth))),
        None => Answer::Sticks,
    }
}
