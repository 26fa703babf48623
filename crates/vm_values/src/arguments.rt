//! Arguments that are all of one kind.
ghost use Rattle.std.specs.Prelude.{◌≡◌, ◌++◌, ◌∷◌, [], IfOk, OnOk};
ghost use Rattle.vm_lib.specs.Operations.{scalars_in};
ghost use Rattle.vm_lib.specs.Library.{integers_in};

use crate::value::Value;
use mos_text::{NoMemory, Scalar};
use mos_value::Items;
use std::alloc::Global;

/// The scalars that values are, where each is one. More than 1,000,000 want memory.
pub(crate) fn scalars_of(alloc: Global, all: &[Value]) -> Result<Option<Items>, NoMemory>
    ensures { IfOk result (λ scalars. scalars ≡ scalars_in all.now) }
{
    let mut scalars = Items::new(alloc);
    for value in all {
        match value.as_scalar() {
            Some(scalar) => add(alloc, &mut scalars, scalar)?,
            None => return Ok(None),
        }
    }
    Ok(Some(scalars))
}

/// Adds a copy of the scalar at the end, where there is room for it.
fn add(alloc: Global, scalars: &mut Items, scalar: &Scalar) -> Result<(), NoMemory>
    ensures { OnOk result (scalars.new ≡ scalars.old ++ scalar.now ∷ []) }
{
    match scalars.push(scalar.copy(alloc)?) {
        Ok(()) => Ok(()),
        Err(_) => Err(NoMemory),
    }
}

/// The integers that values are, where each is one.
pub(crate) fn integers_of(
    alloc: Global,
    all: &[Value],
) -> Result<Option<sqlite_items::Items<i32>>, NoMemory>
    ensures { IfOk result (λ integers. integers ≡ integers_in all.now) }
{
    let mut integers = sqlite_items::Items::new(alloc);
    for value in all {
        match value.as_integer() {
            Some(integer) => integers.push(integer)?,
            None => return Ok(None),
        }
    }
    Ok(Some(integers))
}
