//! An expression where a constant one is wanted: its value, and what it breaks.
ghost use Rattle.std.specs.Prelude.{◌≡◌, IfOk, OnOk};
ghost use Rattle.mos_sorts.specs.Kinds.{least};
ghost use Rattle.mos_constants.specs.Constants as spec;

use crate::{constant_value, has_constant_form};
use mos_sorts::trees::sort_of;
use mos_sorts::worst::note_if;
use mos_sorts::{Scope, Sort, Typed, Value};
use mos_text::{Kind, NoMemory};
use mos_tree::Expr;
use std::alloc::Global;

/// Whether there is a type, but no value.
fn lacks_value(sort: Option<Sort>, value: &Option<Value>) -> bool
    ensures { result ≡ spec.lacks_value sort value.now }
{
    match (sort, value) {
        (Some(_), None) => true,
        _ => false,
    }
}

/// The value of an expression, with its typed tree, where it has the form of a constant one.
fn value_by_form(
    alloc: Global,
    scope: &Scope,
    expr: &Expr,
    tree: &Typed,
) -> Result<Option<Value>, NoMemory>
    ensures { IfOk result (λ found. found ≡ spec.constant scope.now expr.now tree.now) }
{
    if has_constant_form(scope, expr) {
        constant_value(alloc, scope, tree)
    } else {
        Ok(None)
    }
}

/// The value of an expression, with its typed tree, where a constant one is wanted. Notes `CONST` where
/// it lacks the form, or has a type and yet no value.
pub fn constant(
    alloc: Global,
    worst: &mut Option<Kind>,
    scope: &Scope,
    expr: &Expr,
    tree: &Typed,
) -> Result<Option<Value>, NoMemory>
    ensures value { IfOk result (λ found. found ≡ spec.constant scope.now expr.now tree.now) }
    ensures worst { OnOk result
        (worst.new ≡ least worst.old (spec.wrong_constant scope.now expr.now tree.now)) }
{
    let value = value_by_form(alloc, scope, expr, tree)?;
    let broken = !has_constant_form(scope, expr) || lacks_value(sort_of(tree), &value);
    note_if(worst, broken, Kind::Const);
    Ok(value)
}
