//! Operators on integers.
ghost use Rattle.std.specs.Prelude.{◌≡◌, [], ◌∷◌};
ghost use Rattle.vm_lib.specs.Operations as spec;
ghost use Rattle.vm_values.specs.Given.{result_of};

use crate::Value;
use crate::answer::{Answer, integer};
use mos_value::{difference_of, negative_of, product_of, quotient_of, remainder_of, sum_of};

/// The sum of two integers.
pub fn add(left: &Value, right: &Value) -> Answer
    ensures { result_of result ≡ spec.done spec.add (left.now ∷ right.now ∷ []) }
{
    match left.as_integer() {
        Some(left) => match right.as_integer() {
            Some(right) => integer(sum_of(left, right)),
            None => Answer::Sticks,
        },
        None => Answer::Sticks,
    }
}

/// The second integer taken from the first.
pub fn subtract(left: &Value, right: &Value) -> Answer
    ensures { result_of result ≡ spec.done spec.subtract (left.now ∷ right.now ∷ []) }
{
    match left.as_integer() {
        Some(left) => match right.as_integer() {
            Some(right) => integer(difference_of(left, right)),
            None => Answer::Sticks,
        },
        None => Answer::Sticks,
    }
}

/// The product of two integers.
pub fn multiply(left: &Value, right: &Value) -> Answer
    ensures { result_of result ≡ spec.done spec.multiply (left.now ∷ right.now ∷ []) }
{
    match left.as_integer() {
        Some(left) => match right.as_integer() {
            Some(right) => integer(product_of(left, right)),
            None => Answer::Sticks,
        },
        None => Answer::Sticks,
    }
}

/// The first integer by the second, rounded toward zero.
pub fn divide(left: &Value, right: &Value) -> Answer
    ensures { result_of result ≡ spec.done spec.divide (left.now ∷ right.now ∷ []) }
{
    match left.as_integer() {
        Some(left) => match right.as_integer() {
            Some(right) => integer(quotient_of(left, right)),
            None => Answer::Sticks,
        },
        None => Answer::Sticks,
    }
}

/// What is left over of the first integer by the second.
pub fn leave_over(left: &Value, right: &Value) -> Answer
    ensures { result_of result ≡ spec.done spec.leave_over (left.now ∷ right.now ∷ []) }
{
    match left.as_integer() {
        Some(left) => match right.as_integer() {
            Some(right) => integer(remainder_of(left, right)),
            None => Answer::Sticks,
        },
        None => Answer::Sticks,
    }
}

/// The negative of an integer.
pub fn negate(value: &Value) -> Answer
    ensures { result_of result ≡ spec.done spec.negate (value.now ∷ []) }
{
    match value.as_integer() {
        Some(number) => integer(negative_of(number)),
        None => Answer::Sticks,
    }
}

/// The range from one integer to another.
pub fn span(left: &Value, right: &Value) -> Answer
    ensures { result_of result ≡ spec.done spec.span (left.now ∷ right.now ∷ []) }
{
    match left.as_integer() {
        Some(left) => match right.as_integer() {
            Some(right) => Answer::Gives(Value::range(left, right)),
            None => Answer::Sticks,
        },
        None => Answer::Sticks,
    }
}
