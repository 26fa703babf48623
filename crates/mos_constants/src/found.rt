//! Values that operators find.
ghost use Rattle.std.specs.Prelude.{◌≡◌};
ghost use Rattle.mos_constants.specs.Found as spec;

use crate::no_value::NoValue;
use mos_sorts::Value;
use mos_text::{FaultKind, Scalar};

/// An integer, unless it is a fault.
pub(crate) fn integer_found(found: Result<i32, FaultKind>) -> Result<Value, NoValue>
    ensures { spec.Finds result (spec.integer_found found) }
{
    match found {
        Ok(number) => Ok(Value::One(Scalar::Int(number))),
        Err(_) => Err(NoValue::Fault),
    }
}

/// A truth.
pub(crate) fn truth_value(truth: bool) -> Value
    ensures { result ≡ spec.truth_value truth }
{
    Value::One(Scalar::Bool(truth))
}
