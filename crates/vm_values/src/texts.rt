//! Texts, printed forms, and fields of records.
ghost use Rattle.std.specs.Prelude.{◌≡◌, [], ◌∷◌, IfOk};
ghost use Rattle.mos_value.specs.UpToMemory.{UpToMemory};
ghost use Rattle.vm_lib.specs.Operations as spec;
ghost use Rattle.vm_lib.specs.Printed as printed;
ghost use Rattle.vm_values.specs.Given.{result_of};

use crate::answer::{Answer, text};
use crate::value::{Form, Value};
use mos_text::{NoMemory, Text};
use mos_value::{ValueFault, join_of, show_one};
use sqlite_items::at;
use std::alloc::Global;
use vm_lib::{show_list, show_range, show_record, show_set};

/// Two texts, one behind the other.
pub fn join(alloc: Global, left: &Value, right: &Value) -> Result<Answer, NoMemory>
    ensures { IfOk result
        (λ answer. result_of answer ≡ spec.done spec.join (left.now ∷ right.now ∷ [])) }
{
    match left.as_text() {
        Some(left) => match right.as_text() {
            Some(right) => text(join_of(alloc, left, right)),
            None => Ok(Answer::Sticks),
        },
        None => Ok(Answer::Sticks),
    }
}

/// The printed form of a value, as a text.
pub fn show(alloc: Global, value: &Value) -> Result<Answer, NoMemory>
    ensures { IfOk result
        (λ answer. result_of answer ≡ spec.done spec.show_value (value.now ∷ [])) }
{
    text(printed(alloc, value))
}

fn printed(alloc: Global, value: &Value) -> Result<Text, ValueFault>
    ensures { UpToMemory result (printed.show value.now) }
{
    match &value.form {
        Form::One(value) => show_one(alloc, value),
        Form::SetOf(_, members) => show_set(alloc, members),
        Form::ListOf(_, items) => show_list(alloc, items),
        Form::Range(first, last) => show_range(alloc, *first, *last),
        Form::Fields(names, values) => show_record(alloc, names.as_slice(), values.as_slice()),
    }
}

/// The field of this number, from 0 on, of a record.
pub fn field(alloc: Global, value: &Value, number: usize) -> Result<Answer, NoMemory>
    ensures { IfOk result
        (λ answer. result_of answer ≡ spec.done (spec.field number) (value.now ∷ [])) }
{
    match &value.form {
        Form::Fields(_, values) => match at(values.as_slice(), number) {
            Some(found) => Ok(Answer::Gives(Value::one(found.copy(alloc)?))),
            None => Ok(Answer::Sticks),
        },
        Form::One(_) | Form::SetOf(_, _) => Ok(Answer::Sticks),
        Form::ListOf(_, _) | Form::Range(_, _) => Ok(Answer::Sticks),
    }
}
