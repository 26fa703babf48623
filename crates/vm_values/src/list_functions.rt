//! Functions of the library on sets, lists and ranges.
ghost use Rattle.std.specs.Prelude.{◌≡◌, [], ◌∷◌, IfOk};
ghost use Rattle.vm_lib.specs.declared.function.LibraryFunction.TheVariants as function;
ghost use Rattle.vm_lib.specs.Library as spec;
ghost use Rattle.vm_values.specs.Given.{result_of};

use crate::answer::{Answer, gives_integer, integer, scalar};
use crate::value::{Form, Value};
use mos_text::{NoMemory, Scalar};
use mos_value::range_size;
use std::alloc::Global;
use vm_lib::{
    first_of, first_of_range, head_of, last_of, last_of_range, place_of_first, place_of_last,
    reverse_of, size_of, tail_of, text_size,
};

pub(crate) fn get_size(all: &[Value]) -> Answer
    ensures { result_of result ≡ spec.library function.GetSize all.now }
{
    match all {
        [value] => sized(value),
        _ => Answer::Sticks,
    }
}

fn sized(value: &Value) -> Answer
    ensures { result_of result ≡ spec.library function.GetSize (value.now ∷ []) }
{
    match &value.form {
        Form::One(Scalar::Str(text)) => integer(text_size(text)),
        Form::SetOf(_, members) => gives_integer(size_of(members)),
        Form::ListOf(_, items) => gives_integer(size_of(items)),
        Form::Range(first, last) => integer(range_size(*first, *last)),
        Form::One(_) | Form::Fields(_, _) => Answer::Sticks,
    }
}

pub(crate) fn get_first(alloc: Global, all: &[Value]) -> Result<Answer, NoMemory>
    ensures { IfOk result (λ answer. result_of answer ≡ spec.library function.GetFirst all.now) }
{
    match all {
        [value] => first_in(alloc, value),
        _ => Ok(Answer::Sticks),
    }
}

fn first_in(alloc: Global, value: &Value) -> Result<Answer, NoMemory>
    ensures { IfOk result
        (λ answer. result_of answer ≡ spec.library function.GetFirst (value.now ∷ [])) }
{
    match &value.form {
        Form::ListOf(_, items) => scalar(first_of(alloc, items)),
        Form::Range(first, last) => Ok(integer(first_of_range(*first, *last))),
        Form::One(_) | Form::SetOf(_, _) | Form::Fields(_, _) => Ok(Answer::Sticks),
    }
}

pub(crate) fn get_last(alloc: Global, all: &[Value]) -> Result<Answer, NoMemory>
    ensures { IfOk result (λ answer. result_of answer ≡ spec.library function.GetLast all.now) }
{
    match all {
        [value] => last_in(alloc, value),
        _ => Ok(Answer::Sticks),
    }
}

fn last_in(alloc: Global, value: &Value) -> Result<Answer, NoMemory>
    ensures { IfOk result
        (λ answer. result_of answer ≡ spec.library function.GetLast (value.now ∷ [])) }
{
    match &value.form {
        Form::ListOf(_, items) => scalar(last_of(alloc, items)),
        Form::Range(first, last) => Ok(integer(last_of_range(*first, *last))),
        Form::One(_) | Form::SetOf(_, _) | Form::Fields(_, _) => Ok(Answer::Sticks),
    }
}

pub(crate) fn get_head(alloc: Global, all: &[Value]) -> Result<Answer, NoMemory>
    ensures { IfOk result (λ answer. result_of answer ≡ spec.library function.GetHead all.now) }
{
    match all {
        [value, many] => head(alloc, value, many),
        _ => Ok(Answer::Sticks),
    }
}

fn head(alloc: Global, value: &Value, many: &Value) -> Result<Answer, NoMemory>
    ensures { IfOk result
        (λ answer. result_of answer ≡ spec.library function.GetHead (value.now ∷ many.now ∷ [])) }
{
    match value.as_list() {
        Some((member, items)) => match many.as_integer() {
            Some(many) => Ok(Answer::Gives(Value::list(member, head_of(alloc, items, many)?))),
            None => Ok(Answer::Sticks),
        },
        None => Ok(Answer::Sticks),
    }
}

pub(crate) fn get_tail(alloc: Global, all: &[Value]) -> Result<Answer, NoMemory>
    ensures { IfOk result (λ answer. result_of answer ≡ spec.library function.GetTail all.now) }
{
    match all {
        [value, many] => tail(alloc, value, many),
        _ => Ok(Answer::Sticks),
    }
}

fn tail(alloc: Global, value: &Value, many: &Value) -> Result<Answer, NoMemory>
    ensures { IfOk result
        (λ answer. result_of answer ≡ spec.library function.GetTail (value.now ∷ many.now ∷ [])) }
{
    match value.as_list() {
        Some((member, items)) => match many.as_integer() {
            Some(many) => Ok(Answer::Gives(Value::list(member, tail_of(alloc, items, many)?))),
            None => Ok(Answer::Sticks),
        },
        None => Ok(Answer::Sticks),
    }
}

pub(crate) fn get_reverse(alloc: Global, all: &[Value]) -> Result<Answer, NoMemory>
    ensures { IfOk result (λ answer. result_of answer ≡ spec.library function.GetReverse all.now) }
{
    match all {
        [value] => match value.as_list() {
            Some((member, items)) => Ok(Answer::Gives(Value::list(
                member,
                reverse_of(alloc, items)?,
            ))),
            None => Ok(Answer::Sticks),
        },
        _ => Ok(Answer::Sticks),
    }
}

pub(crate) fn find_first(all: &[Value]) -> Answer
    ensures { result_of result ≡ spec.library function.FindFirst all.now }
{
    match all {
        [value, wanted] => first_place(value, wanted),
        _ => Answer::Sticks,
    }
}

fn first_place(value: &Value, wanted: &Value) -> Answer
    ensures { result_of result ≡ spec.library function.FindFirst (value.now ∷ wanted.now ∷ []) }
{
    match value.as_list() {
        Some((_, items)) => match wanted.as_scalar() {
            Some(wanted) => gives_integer(place_of_first(items, wanted)),
            None => Answer::Sticks,
        },
        None => Answer::Sticks,
    }
}

pub(crate) fn find_last(all: &[Value]) -> Answer
    ensures { result_of result ≡ spec.library function.FindLast all.now }
{
    match all {
        [value, wanted] => last_place(value, wanted),
        _ => Answer::Sticks,
    }
}

fn last_place(value: &Value, wanted: &Value) -> Answer
    ensures { result_of result ≡ spec.library function.FindLast (value.now ∷ wanted.now ∷ []) }
{
    match value.as_list() {
        Some((_, items)) => match wanted.as_scalar() {
            Some(wanted) => gives_integer(place_of_last(items, wanted)),
            None => Answer::Sticks,
        },
        None => Answer::Sticks,
    }
}
