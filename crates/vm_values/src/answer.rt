//! What comes of values.
ghost use Rattle.std.specs.Prelude.{◌≡◌, List, ℕ, ℤ, IfOk, Result};
ghost use Rattle.mos_text.specs.declared.fault_kind.FaultKind.{FaultKind};
ghost use Rattle.mos_text.specs.declared.scalar.Scalar.{Scalar};
ghost use Rattle.mos_text.specs.declared.scalar.Scalar.TheVariants as scalar;
ghost use Rattle.mos_value.specs.Answers.{result_of_found, truth as truth_of};
ghost use Rattle.mos_value.specs.UpToMemory.{UpToMemory};
ghost use Rattle.vm_lib.specs.Operations.{found_set, found_list};
ghost use Rattle.vm_lib.specs.Library.{gives_integer, integer_or_stuck};
ghost use Rattle.vm_values.specs.Given.{result_of};

use crate::Value;
use mos_text::{FaultKind, NoMemory, Scalar, Text};
use mos_value::{Items, MemberType, ValueFault};

/// What comes of values.
#[derive(Drop)]
pub enum Answer {
    Gives(Value),
    Faults(FaultKind),
    /// The values are not of the kinds that are wanted.
    Sticks,
}

/// An integer that was found, or its fault.
pub(crate) fn integer(found: Result<i32, FaultKind>) -> Answer
    ensures { result_of result ≡ result_of_found scalar.Int found }
{
    match found {
        Ok(number) => Answer::Gives(Value::one(Scalar::Int(number))),
        Err(kind) => Answer::Faults(kind),
    }
}

/// An integer.
pub(crate) fn gives_integer(number: i32) -> Answer
    ensures { result_of result ≡ gives_integer number }
{
    Answer::Gives(Value::one(Scalar::Int(number)))
}

/// An integer that is there.
pub(crate) fn integer_or_stuck(number: Option<i32>) -> Answer
    ensures { result_of result ≡ integer_or_stuck number }
{
    match number {
        Some(number) => gives_integer(number),
        None => Answer::Sticks,
    }
}

/// A truth that is there.
pub(crate) fn truth(found: Option<bool>) -> Answer
    ensures { result_of result ≡ truth_of found }
{
    match found {
        Some(truth) => Answer::Gives(Value::one(Scalar::Bool(truth))),
        None => Answer::Sticks,
    }
}

/// A scalar that was found, or its fault.
pub(crate) fn scalar(found: Result<Scalar, ValueFault>) -> Result<Answer, NoMemory>
    ensures { (defined : Result Scalar FaultKind)
        → UpToMemory found defined
        → IfOk result (λ answer. result_of answer ≡ result_of_found (λ x. x) defined) }
{
    match found {
        Ok(scalar) => Ok(Answer::Gives(Value::one(scalar))),
        Err(ValueFault::Fault(kind)) => Ok(Answer::Faults(kind)),
        Err(ValueFault::NoMemory) => Err(NoMemory),
    }
}

/// A text that was found, or its fault.
pub(crate) fn text(found: Result<Text, ValueFault>) -> Result<Answer, NoMemory>
    ensures { (defined : Result (List ℕ) FaultKind)
        → UpToMemory found defined
        → IfOk result (λ answer. result_of answer ≡ result_of_found scalar.Str defined) }
{
    match found {
        Ok(text) => Ok(Answer::Gives(Value::one(Scalar::Str(text)))),
        Err(ValueFault::Fault(kind)) => Ok(Answer::Faults(kind)),
        Err(ValueFault::NoMemory) => Err(NoMemory),
    }
}

/// A set that was found, or its fault.
pub(crate) fn set(member: MemberType, found: Result<Items, ValueFault>) -> Result<Answer, NoMemory>
    ensures { (defined : Result (List Scalar) FaultKind)
        → UpToMemory found defined
        → IfOk result (λ answer. result_of answer ≡ found_set member defined) }
{
    match found {
        Ok(members) => Ok(Answer::Gives(Value::set(member, members))),
        Err(ValueFault::Fault(kind)) => Ok(Answer::Faults(kind)),
        Err(ValueFault::NoMemory) => Err(NoMemory),
    }
}

/// A list that was found, or its fault.
pub(crate) fn list(member: MemberType, found: Result<Items, ValueFault>) -> Result<Answer, NoMemory>
    ensures { (defined : Result (List Scalar) FaultKind)
        → UpToMemory found defined
        → IfOk result (λ answer. result_of answer ≡ found_list member defined) }
{
    match found {
        Ok(items) => Ok(Answer::Gives(Value::list(member, items))),
        Err(ValueFault::Fault(kind)) => Ok(Answer::Faults(kind)),
        Err(ValueFault::NoMemory) => Err(NoMemory),
    }
}
