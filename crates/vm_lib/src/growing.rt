//! A text that grows piece by piece, up to the longest text.
ghost use Rattle.std.specs.Prelude.{◌≡◌, ◌≤◌, length, string_bytes};
ghost use Rattle.std.specs.List.{flat_map};
ghost use Rattle.mos_value.specs.Texts.{print_scalar};
ghost use Rattle.vm_lib.specs.Growing.{Grows, text_limit};
ghost use Rattle.vm_lib.specs.Printed.{print_next, print_items};

use mos_text::{FaultKind, Scalar, TEXT_LIMIT};
use mos_value::{ValueFault, show_one};
use std::alloc::Global;

/// Adds the piece at the end.
pub(crate) fn put(text: &mut String, piece: &str) -> Result<(), ValueFault>
    requires { length (string_bytes text.old) ≤ text_limit }
    ensures { Grows (string_bytes text.old) (string_bytes text.new) piece.now result }
{
    if piece.len() > TEXT_LIMIT - text.len() {
        return Err(ValueFault::Fault(FaultKind::TooBig));
    }
    text.push_str(piece)?;
    Ok(())
}

/// Adds the printed form of a scalar at the end.
pub(crate) fn put_scalar(alloc: Global, text: &mut String, value: &Scalar) -> Result<(), ValueFault>
    requires { length (string_bytes text.old) ≤ text_limit }
    ensures { Grows (string_bytes text.old) (string_bytes text.new)
        (print_scalar value.now) result }
{
    let form = show_one(alloc, value)?;
    put(text, form.as_str())
}

/// Adds items with commas between them at the end.
pub(crate) fn put_items(
    alloc: Global,
    text: &mut String,
    items: &[Scalar],
) -> Result<(), ValueFault>
    requires { length (string_bytes text.old) ≤ text_limit }
    ensures { Grows (string_bytes text.old) (string_bytes text.new) (print_items items.now) result }
{
    match items {
        [] => Ok(()),
        [first, more @ ..] => {
            put_scalar(alloc, text, first)?;
            put_more(alloc, text, more)
        }
    }
}

/// Adds items at the end, each behind a comma.
fn put_more(alloc: Global, text: &mut String, items: &[Scalar]) -> Result<(), ValueFault>
    requires { length (string_bytes text.old) ≤ text_limit }
    ensures { Grows (string_bytes text.old) (string_bytes text.new)
        (flat_map print_next items.now) result }
{
    for item in items {
        put_next(alloc, text, item)?;
    }
    Ok(())
}

/// Adds an item at the end, behind a comma.
fn put_next(alloc: Global, text: &mut String, item: &Scalar) -> Result<(), ValueFault>
    requires { length (string_bytes text.old) ≤ text_limit }
    ensures { Grows (string_bytes text.old) (string_bytes text.new) (print_next item.now) result }
{
    put(text, ",")?;
    put_scalar(alloc, text, item)
}
