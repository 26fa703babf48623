//! Functions of the library.
ghost use Rattle.std.specs.Prelude.{◌≡◌, [], ◌∷◌, IfOk};
ghost use Rattle.vm_lib.specs.declared.function.LibraryFunction.TheVariants as function;
ghost use Rattle.vm_lib.specs.Library as spec;
ghost use Rattle.vm_values.specs.Given.{result_of};

use crate::answer::{Answer, gives_integer, integer, integer_or_stuck, text};
use crate::arguments::integers_of;
use crate::list_functions::{
    find_first, find_last, get_first, get_head, get_last, get_reverse, get_size, get_tail,
};
use crate::texts::show;
use crate::value::Value;
use mos_text::{NoMemory, Scalar};
use std::alloc::Global;
use vm_lib::{
    LibraryFunction, absolute_of, greatest_of, integer_of_text, integer_of_truth, is_odd, least_of,
    part_of,
};

/// What a function of the library makes of its arguments.
pub fn library(alloc: Global, function: LibraryFunction, all: &[Value]) -> Result<Answer, NoMemory>
    ensures { IfOk result (λ answer. result_of answer ≡ spec.library function all.now) }
{
    match function {
        LibraryFunction::Abs => Ok(abs(all)),
        LibraryFunction::MinList => min_list(alloc, all),
        LibraryFunction::MaxList => max_list(alloc, all),
        LibraryFunction::IsOdd => Ok(odd(all)),
        LibraryFunction::GetSize => Ok(get_size(all)),
        LibraryFunction::GetFirst => get_first(alloc, all),
        LibraryFunction::GetLast => get_last(alloc, all),
        LibraryFunction::GetHead => get_head(alloc, all),
        LibraryFunction::GetTail => get_tail(alloc, all),
        LibraryFunction::GetReverse => get_reverse(alloc, all),
        LibraryFunction::FindFirst => Ok(find_first(all)),
        LibraryFunction::FindLast => Ok(find_last(all)),
        LibraryFunction::Substr => substr(alloc, all),
        LibraryFunction::TextOf => text_of(alloc, all),
        LibraryFunction::IntegerOf => Ok(integer_of(all)),
    }
}

fn abs(all: &[Value]) -> Answer
    ensures { result_of result ≡ spec.library function.Abs all.now }
{
    match all {
        [value] => match value.as_integer() {
            Some(number) => integer(absolute_of(number)),
            None => Answer::Sticks,
        },
        _ => Answer::Sticks,
    }
}

fn odd(all: &[Value]) -> Answer
    ensures { result_of result ≡ spec.library function.IsOdd all.now }
{
    match all {
        [value] => match value.as_integer() {
            Some(number) => Answer::Gives(Value::one(Scalar::Bool(is_odd(number)))),
            None => Answer::Sticks,
        },
        _ => Answer::Sticks,
    }
}

fn min_list(alloc: Global, all: &[Value]) -> Result<Answer, NoMemory>
    ensures { IfOk result (λ answer. result_of answer ≡ spec.library function.MinList all.now) }
{
    match integers_of(alloc, all)? {
        Some(numbers) => Ok(integer_or_stuck(least_of(numbers.as_slice()))),
        None => Ok(Answer::Sticks),
    }
}

fn max_list(alloc: Global, all: &[Value]) -> Result<Answer, NoMemory>
    ensures { IfOk result (λ answer. result_of answer ≡ spec.library function.MaxList all.now) }
{
    match integers_of(alloc, all)? {
        Some(numbers) => Ok(integer_or_stuck(greatest_of(numbers.as_slice()))),
        None => Ok(Answer::Sticks),
    }
}

fn substr(alloc: Global, all: &[Value]) -> Result<Answer, NoMemory>
    ensures { IfOk result (λ answer. result_of answer ≡ spec.library function.Substr all.now) }
{
    match all {
        [whole, first, last] => part(alloc, whole, first, last),
        _ => Ok(Answer::Sticks),
    }
}

fn part(alloc: Global, whole: &Value, first: &Value, last: &Value) -> Result<Answer, NoMemory>
    ensures { IfOk result
        (λ answer. result_of answer ≡ spec.library function.Substr (whole.now ∷ first.now ∷ last.now ∷ [])) }
{
    match whole.as_text() {
        Some(whole) => match first.as_integer() {
            Some(first) => match last.as_integer() {
                Some(last) => text(part_of(alloc, whole, first, last)),
                None => Ok(Answer::Sticks),
            },
            None => Ok(Answer::Sticks),
        },
        None => Ok(Answer::Sticks),
    }
}

fn text_of(alloc: Global, all: &[Value]) -> Result<Answer, NoMemory>
    ensures { IfOk result (λ answer. result_of answer ≡ spec.library function.TextOf all.now) }
{
    match all {
        [value] => show(alloc, value),
        _ => Ok(Answer::Sticks),
    }
}

fn integer_of(all: &[Value]) -> Answer
    ensures { result_of result ≡ spec.library function.IntegerOf all.now }
{
    match all {
        [value] => converted(value),
        _ => Answer::Sticks,
    }
}

fn converted(value: &Value) -> Answer
    ensures { result_of result ≡ spec.library function.IntegerOf (value.now ∷ []) }
{
    match value.as_scalar() {
        Some(Scalar::Str(text)) => integer(integer_of_text(text)),
        Some(Scalar::Bool(truth)) => gives_integer(integer_of_truth(*truth)),
        Some(Scalar::Int(number)) => gives_integer(*number),
        Some(Scalar::Model(_) | Scalar::Event(_, _)) | None => Answer::Sticks,
    }
}
