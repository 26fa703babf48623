//! Texts and printed forms, up to the longest text.
ghost use Rattle.std.specs.Prelude.{◌≡◌, IfOk};
ghost use Rattle.mos_text.specs.declared.scalar.Scalar.TheVariants as scalar;
ghost use Rattle.mos_value.specs.Texts.{text_of, join_of, print_scalar, show_one};
ghost use Rattle.mos_value.specs.UpToMemory.{UpToMemory};

use crate::ValueFault;
use mos_text::{FaultKind, NoMemory, Scalar, TEXT_LIMIT, Text};
use std::alloc::Global;

/// The text itself, or TOOBIG where it has more than 1,000,000 bytes.
pub fn text_of(text: Text) -> Result<Text, FaultKind>
    ensures { result ≡ text_of text }
{
    if text.as_bytes().len() > TEXT_LIMIT {
        return Err(FaultKind::TooBig);
    }
    Ok(text)
}

/// `+` between texts: the one, and behind it the other, or TOOBIG above 1,000,000 bytes.
pub fn join_of(alloc: Global, a: &Text, b: &Text) -> Result<Text, ValueFault>
    ensures { UpToMemory result (join_of a.now b.now) }
{
    let (a, b) = (a.as_str(), b.as_str());
    if a.len() > TEXT_LIMIT || b.len() > TEXT_LIMIT - a.len() {
        return Err(ValueFault::Fault(FaultKind::TooBig));
    }
    let mut joined = String::from_str(alloc, a)?;
    joined.push_str(b)?;
    Ok(Text::from_string(joined))
}

/// The printed form of a value, or TOOBIG where it has more than 1,000,000 bytes. Integers are
/// decimal, texts are as they are, a model is `model 3` and an event `event 2 9`.
pub fn show_one(alloc: Global, a: &Scalar) -> Result<Text, ValueFault>
    ensures { UpToMemory result (show_one a.now) }
{
    into_shown(alloc, a.copy(alloc)?)
}

/// The printed form of a value that is not wanted any more, as by `show_one`; a text is handed on.
pub fn into_shown(alloc: Global, a: Scalar) -> Result<Text, ValueFault>
    ensures { UpToMemory result (show_one a) }
{
    let printed = printed_form(alloc, a)?;
    match text_of(printed) {
        Ok(text) => Ok(text),
        Err(kind) => Err(ValueFault::Fault(kind)),
    }
}

fn printed_form(alloc: Global, value: Scalar) -> Result<Text, NoMemory>
    ensures { IfOk result (λ text. text ≡ print_scalar value) }
{
    match value {
        Scalar::Str(text) => Ok(text),
        Scalar::Int(number) => Ok(Text::from_string(format!(in alloc; "{number}")?)),
        Scalar::Bool(truth) => Ok(Text::from_string(format!(in alloc; "{truth}")?)),
        Scalar::Model(model) => Ok(Text::from_string(format!(in alloc; "model {model}")?)),
        Scalar::Event(class, value) => event_form(alloc, class, value),
    }
}

fn event_form(alloc: Global, class: i32, value: i32) -> Result<Text, NoMemory>
    ensures { IfOk result (λ text. text ≡ print_scalar (scalar.Event class value)) }
{
    Ok(Text::from_string(format!(in alloc; "event {class} {value}")?))
}
