//! What operators and functions make of values.
ghost use Rattle.std.specs.Prelude.{◌≡◌, ◌∷◌, [], IfOk};
ghost use Rattle.mos_text.specs.declared.scalar.Scalar.TheVariants as scalar;
ghost use Rattle.mos_value.specs.Answers.{answer, between, sum, difference, compare, show, text, truth, comparison_result, result_of_found};
ghost use Rattle.bim_machine.specs.Instructions.{comparison_of};
ghost use Rattle.mos_vm.specs.Rows.{result_of};

use crate::value::Value;
use bim_code::Comparison;
use mos_text::{FaultKind, NoMemory, Scalar, Text};
use mos_value::{ValueFault, difference_of, into_shown, order_of, same_value, sum_of, text_of};
use std::alloc::Global;

/// What comes of values.
#[derive(Drop)]
pub(crate) enum Answer {
    Gives(Value),
    Faults(FaultKind),
    /// The values are not of the kinds that are wanted.
    Sticks,
}

/// The sum of two integers.
pub(crate) fn sum(left: Value, right: Value) -> Answer
    ensures { result_of result ≡ answer (between sum) (left ∷ right ∷ []) }
{
    match left.into_integer() {
        Some(left) => match right.into_integer() {
            Some(right) => integer(sum_of(left, right)),
            None => Answer::Sticks,
        },
        None => Answer::Sticks,
    }
}

/// The second integer taken from the first.
pub(crate) fn difference(left: Value, right: Value) -> Answer
    ensures { result_of result ≡ answer (between difference) (left ∷ right ∷ []) }
{
    match left.into_integer() {
        Some(left) => match right.into_integer() {
            Some(right) => integer(difference_of(left, right)),
            None => Answer::Sticks,
        },
        None => Answer::Sticks,
    }
}

/// Whether the first value compares so with the second.
pub(crate) fn comparison(how: Comparison, left: Value, right: Value) -> Answer
    ensures { result_of result
        ≡ answer (between (compare (comparison_of how))) (left ∷ right ∷ []) }
{
    match left.into_scalar() {
        Some(left) => match right.into_scalar() {
            Some(right) => truth(compared(how, &left, &right)),
            None => Answer::Sticks,
        },
        None => Answer::Sticks,
    }
}

/// The printed form of a value, as a text.
pub(crate) fn printed_text(alloc: Global, value: Value) -> Result<Answer, NoMemory>
    ensures { IfOk result (λ printed. result_of printed ≡ answer show (value ∷ [])) }
{
    match value.into_scalar() {
        Some(value) => match into_shown(alloc, value) {
            Ok(text) => Ok(Answer::Gives(Value::one(Scalar::Str(text)))),
            Err(ValueFault::Fault(kind)) => Ok(Answer::Faults(kind)),
            Err(ValueFault::NoMemory) => Err(NoMemory),
        },
        None => Ok(Answer::Sticks),
    }
}

/// A text, where it is not too long.
pub(crate) fn text(bytes: Text) -> Answer
    ensures { result_of result ≡ text bytes }
{
    match text_of(bytes) {
        Ok(text) => Answer::Gives(Value::one(Scalar::Str(text))),
        Err(kind) => Answer::Faults(kind),
    }
}

/// An integer that an operator has found, or its fault.
fn integer(number: Result<i32, FaultKind>) -> Answer
    ensures { result_of result ≡ result_of_found scalar.Int number }
{
    match number {
        Ok(number) => Answer::Gives(Value::one(Scalar::Int(number))),
        Err(kind) => Answer::Faults(kind),
    }
}

fn truth(found: Option<bool>) -> Answer
    ensures { result_of result ≡ truth found }
{
    match found {
        Some(truth) => Answer::Gives(Value::one(Scalar::Bool(truth))),
        None => Answer::Sticks,
    }
}

/// Whether the left value compares so with the right one, where both are of one kind that can.
fn compared(comparison: Comparison, left: &Scalar, right: &Scalar) -> Option<bool>
    ensures { result ≡ comparison_result (comparison_of comparison) left.now right.now }
{
    match comparison {
        Comparison::Equal => same_value(left, right),
        Comparison::NotEqual => Some(!same_value(left, right)?),
        Comparison::Less => Some(order_of(left, right)?.is_lt()),
        Comparison::AtMost => Some(!order_of(left, right)?.is_gt()),
        Comparison::Greater => Some(order_of(left, right)?.is_gt()),
        Comparison::AtLeast => Some(!order_of(left, right)?.is_lt()),
    }
}
