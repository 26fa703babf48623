//! The sizes of types and declarations.
ghost use Rattle.std.specs.Prelude.{◌≡◌, map, sum};
ghost use Rattle.mos_sizes.specs.SizeCounts as spec;
ghost use Rattle.mos_sizes.specs.SizeCounts.{capped};

use crate::expressions::{each, expr};
use mos_tree::{Dimension, FieldGroup, FormalGroup, Item, Parameter, TypeForm};

fn dimension(x: &Dimension) -> u64
    ensures { result ≡ capped (spec.dimension_size x.now) }
{
    match x {
        Dimension::Range | Dimension::Set(_) => 0,
        Dimension::IndexSet(set) => expr(set),
    }
}

/// The indexes of an array type.
fn dimensions(all: &[Dimension]) -> u64
    ensures { result ≡ capped (sum (map spec.dimension_size all.now)) }
{
    let mut size = 0_u64;
    for x in all {
        size = size.saturating_add(dimension(x));
    }
    size
}

/// A type, as it is written.
pub(crate) fn type_form(x: &TypeForm) -> u64
    ensures { result ≡ capped (spec.type_size x.now) }
{
    match x {
        TypeForm::Base(_) | TypeForm::Range | TypeForm::Set(_) | TypeForm::List(_) => 0,
        TypeForm::Array {
            dimensions: all,
            ..
        } => dimensions(all.as_slice()),
    }
}

fn parameter(x: &Parameter) -> u64
    ensures { result ≡ capped (spec.parameter_size x.now) }
{
    expr(&x.default).saturating_add(24)
}

/// Parameters.
pub(crate) fn parameters(all: &[Parameter]) -> u64
    ensures { result ≡ capped (sum (map spec.parameter_size all.now)) }
{
    let mut size = 0_u64;
    for x in all {
        size = size.saturating_add(parameter(x));
    }
    size
}

fn field(x: &FieldGroup) -> u64
    ensures { result ≡ capped (spec.field_size x.now) }
{
    type_form(&x.typ).saturating_add(each(24, x.names.len()))
}

/// The fields of a record.
fn fields(all: &[FieldGroup]) -> u64
    ensures { result ≡ capped (sum (map spec.field_size all.now)) }
{
    let mut size = 0_u64;
    for x in all {
        size = size.saturating_add(field(x));
    }
    size
}

fn item(x: &Item) -> u64
    ensures { result ≡ capped (spec.item_size x.now) }
{
    match x {
        Item::Constant { value, .. } => expr(value).saturating_add(24),
        Item::Variables { typ, .. } => type_form(typ),
        Item::Record { fields: all, .. } => fields(all.as_slice()).saturating_add(24),
    }
}

/// The items of a block of declarations.
pub(crate) fn items(all: &[Item]) -> u64
    ensures { result ≡ capped (spec.items_size all.now) }
{
    let mut size = 0_u64;
    for x in all {
        size = size.saturating_add(item(x));
    }
    size
}

/// The types of formals.
pub(crate) fn formal_types(all: &[FormalGroup]) -> u64
    ensures { result ≡ capped (spec.formal_types_size all.now) }
{
    let mut size = 0_u64;
    for x in all {
        size = size.saturating_add(type_form(&x.typ));
    }
    size
}

fn formal(x: &FormalGroup) -> u64
    ensures { result ≡ capped (spec.formal_size x.now) }
{
    type_form(&x.typ).saturating_add(each(24, x.names.len()))
}

/// Formals with their names.
pub(crate) fn formals(all: &[FormalGroup]) -> u64
    ensures { result ≡ capped (spec.formals_size all.now) }
{
    let mut size = 0_u64;
    for x in all {
        size = size.saturating_add(formal(x));
    }
    size
}
