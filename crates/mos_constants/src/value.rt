//! The values of constant expressions.
ghost use Rattle.std.specs.Prelude.{◌≡◌, IfOk, option_copied};
ghost use Rattle.mos_constants.specs.Found.{Finds};
ghost use Rattle.mos_constants.specs.Constants as spec;

use crate::found::truth_value;
use crate::no_value::NoValue;
use crate::operators::{binary_value, decides, printed_value, set_value, unary_value};
use mos_sorts::{Entry, Operation, Role, Scope, Typed, Value, Where};
use mos_text::{NoMemory, Scalar, SourceText};
use mos_value::{Items, set_of, text_of};
use std::alloc::Global;

/// The value of the constant that is declared so.
fn value_of_entry(alloc: Global, entry: Option<&Entry>) -> Result<Value, NoValue>
    ensures { Finds result (spec.value_of_entry (option_copied entry.entry)) }
{
    match entry {
        Some(entry) => value_of_role(alloc, &entry.role),
        None => Err(NoValue::Fault),
    }
}

fn value_of_role(alloc: Global, role: &Role) -> Result<Value, NoValue>
    ensures { Finds result (spec.value_of_role role.now) }
{
    match role {
        Role::Constant(_, value) => Ok(value.copy(alloc)?),
        _ => Err(NoValue::Fault),
    }
}

/// The value of the constant of this name that is declared there.
fn named_value(
    alloc: Global,
    scope: &Scope,
    place: Where,
    name: &SourceText,
) -> Result<Value, NoValue>
    ensures { Finds result (spec.named_value place name.now scope.now) }
{
    match place {
        Where::Own => value_of_entry(alloc, scope.own.latest(name)),
        Where::Model => value_of_entry(alloc, scope.model.latest(name)),
        Where::Index => Err(NoValue::Fault),
    }
}

/// A literal, unless it is too long for a text.
fn text_value(alloc: Global, text: &SourceText) -> Result<Value, NoValue>
    ensures { Finds result (spec.text_value text.now) }
{
    match text_of(text.text().copy(alloc)?) {
        Ok(text) => Ok(Value::One(Scalar::Str(text))),
        Err(_) => Err(NoValue::Fault),
    }
}

/// The value without parts, if it is one.
fn into_scalar(value: Value) -> Result<Scalar, NoValue>
    ensures { Finds result (spec.scalar_of value) }
{
    match value {
        Value::One(scalar) => Ok(scalar),
        _ => Err(NoValue::Fault),
    }
}

/// The values without parts of several expressions.
#[cycle(value)]
fn items_of(alloc: Global, scope: &Scope, all: &[Typed]) -> Result<Items, NoValue>
    ensures { Finds result (spec.items_of (spec.scalar_values scope.now all.now)) }
{
    let mut items = Items::new(alloc);
    for tree in all {
        let value = find_value(alloc, scope, tree)?;
        items.push(into_scalar(value)?)?;
    }
    Ok(items)
}

/// The value of a set of these.
#[cycle(value)]
fn set_of_all(alloc: Global, scope: &Scope, all: &[Typed]) -> Result<Value, NoValue>
    ensures { Finds result (spec.set_of_all (spec.scalar_values scope.now all.now)) }
{
    let items = items_of(alloc, scope, all)?;
    Ok(Value::Set(set_of(alloc, &items)?))
}

/// The value of an operator behind its left value.
#[cycle(value)]
fn behind(
    alloc: Global,
    scope: &Scope,
    operation: Operation,
    a: Value,
    b: &Typed,
) -> Result<Value, NoValue>
    ensures { Finds result (spec.behind operation a (spec.constant_value scope.now b.now)) }
{
    if decides(operation, &a) {
        return Ok(a);
    }
    let b = find_value(alloc, scope, b)?;
    binary_value(alloc, operation, &a, &b)
}

/// The value of an expression, or that it has none.
#[cycle(value)]
fn find_value(alloc: Global, scope: &Scope, tree: &Typed) -> Result<Value, NoValue>
    ensures { Finds result (spec.constant_value scope.now tree.now) }
{
    match tree {
        Typed::Integer(number) => Ok(Value::One(Scalar::Int(*number))),
        Typed::Text(text) => text_value(alloc, text),
        Typed::Truth(truth) => Ok(truth_value(*truth)),
        Typed::Constant(_, place, name) => named_value(alloc, scope, *place, name),
        Typed::Set(_, all) => set_of_all(alloc, scope, all.as_slice()),
        Typed::List(_, all) => Ok(Value::List(items_of(alloc, scope, all.as_slice())?)),
        Typed::Unary(operator, a) => unary_value(*operator, &find_value(alloc, scope, a.get())?),
        Typed::Binary(_, operation, a, b) => {
            let a = find_value(alloc, scope, a.get())?;
            behind(alloc, scope, *operation, a, b.get())
        }
        Typed::AsSet(a) => set_value(alloc, &find_value(alloc, scope, a.get())?),
        Typed::Show(a) => printed_value(alloc, &find_value(alloc, scope, a.get())?),
        _ => Err(NoValue::Fault),
    }
}

/// The value of a constant expression, where it has one; a fault has none.
pub fn constant_value(alloc: Global, scope: &Scope, tree: &Typed) -> Result<Option<Value>, NoMemory>
    ensures { IfOk result (λ found. found ≡ spec.constant_value scope.now tree.now) }
{
    match find_value(alloc, scope, tree) {
        Ok(value) => Ok(Some(value)),
        Err(NoValue::Fault) => Ok(None),
        Err(NoValue::NoMemory) => Err(NoMemory),
    }
}
