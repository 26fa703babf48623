//! The fields of a record, printed behind a text.
ghost use Rattle.std.specs.Prelude.{◌≡◌, ◌≤◌, length, string_bytes};
ghost use Rattle.vm_lib.specs.Growing.{Grows, text_limit};
ghost use Rattle.vm_lib.specs.Printed.{print_field, print_fields, print_more_fields, print_next_field};

use crate::growing::{put, put_scalar};
use mos_text::{Scalar, Text};
use mos_value::ValueFault;
use std::alloc::Global;

/// Adds fields with commas between them at the end.
pub(crate) fn put_fields(
    alloc: Global,
    text: &mut String,
    names: &[Text],
    values: &[Scalar],
) -> Result<(), ValueFault>
    requires { length (string_bytes text.old) ≤ text_limit }
    ensures { Grows (string_bytes text.old) (string_bytes text.new)
        (print_fields names.now values.now) result }
{
    match (names, values) {
        ([name, names @ ..], [value, values @ ..]) => {
            put_field(alloc, text, name, value)?;
            put_more_fields(alloc, text, names, values)
        }
        _ => Ok(()),
    }
}

/// Adds fields at the end, each behind a comma.
fn put_more_fields(
    alloc: Global,
    text: &mut String,
    names: &[Text],
    values: &[Scalar],
) -> Result<(), ValueFault>
    requires { length (string_bytes text.old) ≤ text_limit }
    ensures { Grows (string_bytes text.old) (string_bytes text.new)
        (print_more_fields names.now values.now) result }
{
    let mut rest = values;
    for name in names {
        let Some((value, more)) = rest.split_first() else {
            return Ok(());
        };
        put_next_field(alloc, text, name, value)?;
        rest = more;
    }
    Ok(())
}

/// Adds a field at the end, behind a comma.
fn put_next_field(
    alloc: Global,
    text: &mut String,
    name: &Text,
    value: &Scalar,
) -> Result<(), ValueFault>
    requires { length (string_bytes text.old) ≤ text_limit }
    ensures { Grows (string_bytes text.old) (string_bytes text.new)
        (print_next_field name.now value.now) result }
{
    put(text, ",")?;
    put_field(alloc, text, name, value)
}

/// Adds a field at the end.
fn put_field(
    alloc: Global,
    text: &mut String,
    name: &Text,
    value: &Scalar,
) -> Result<(), ValueFault>
    requires { length (string_bytes text.old) ≤ text_limit }
    ensures { Grows (string_bytes text.old) (string_bytes text.new)
        (print_field name.now value.now) result }
{
    put(text, name.as_str())?;
    put(text, "=")?;
    put_scalar(alloc, text, value)
}
