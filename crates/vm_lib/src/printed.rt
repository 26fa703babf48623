//! Printed forms of values that have parts.
ghost use Rattle.std.specs.Prelude.{◌≡◌, ◌++◌, ◌≤◌, length, string_bytes, codes};
ghost use Rattle.mos_text.specs.declared.scalar.Scalar.TheVariants as scalar;
ghost use Rattle.mos_value.specs.Texts.{text_of};
ghost use Rattle.mos_value.specs.UpToMemory.{UpToMemory};
ghost use Rattle.vm_lib.specs.Growing.{Grows, text_limit};
ghost use Rattle.vm_lib.specs.Printed.{print_items, print_fields, print_set, print_list, print_range, print_record};

use crate::fields::put_fields;
use crate::growing::{put, put_items, put_scalar};
use mos_text::{Scalar, Text};
use mos_value::{Items, ValueFault};
use std::alloc::Global;

/// The printed form of a set, as `{1,2}`, or TOOBIG where it has more than 1,000,000 bytes.
pub fn show_set(alloc: Global, members: &Items) -> Result<Text, ValueFault>
    ensures { UpToMemory result (text_of (print_set members.now)) }
{
    let mut text = String::new(alloc);
    put(&mut text, "{")?;
    put_items(alloc, &mut text, members.as_slice())?;
    put(&mut text, "}")?;
    Ok(Text::from_string(text))
}

/// The printed form of a list, as `[1,2]`, or TOOBIG where it has more than 1,000,000 bytes.
pub fn show_list(alloc: Global, items: &Items) -> Result<Text, ValueFault>
    ensures { UpToMemory result (text_of (print_list items.now)) }
{
    let mut text = String::new(alloc);
    put(&mut text, "[")?;
    put_items(alloc, &mut text, items.as_slice())?;
    put(&mut text, "]")?;
    Ok(Text::from_string(text))
}

/// The printed form of a range, as `1..3`; it is never too long.
pub fn show_range(alloc: Global, first: i32, last: i32) -> Result<Text, ValueFault>
    ensures { UpToMemory result (text_of (print_range first last)) }
{
    let mut text = String::new(alloc);
    put_scalar(alloc, &mut text, &Scalar::Int(first))?;
    put(&mut text, "..")?;
    put_scalar(alloc, &mut text, &Scalar::Int(last))?;
    Ok(Text::from_string(text))
}

/// The printed form of a record, as `[x=1,y=2]`, or TOOBIG where it has more than 1,000,000 bytes. There is a name for each
/// field.
pub fn show_record(alloc: Global, names: &[Text], values: &[Scalar]) -> Result<Text, ValueFault>
    ensures { UpToMemory result (text_of (print_record names.now values.now)) }
{
    let mut text = String::new(alloc);
    put(&mut text, "[")?;
    put_fields(alloc, &mut text, names, values)?;
    put(&mut text, "]")?;
    Ok(Text::from_string(text))
}
