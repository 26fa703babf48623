//! Scalars of arrays that are read and written.
ghost use Rattle.std.specs.Prelude.{◌≡◌, Err};
ghost use Rattle.std.specs.Option.{option_copied};
ghost use Rattle.mos_array.specs.Scalars as spec;
ghost use Rattle.mos_text.specs.declared.fault_kind.FaultKind.TheVariants.{Range};
ghost use Rattle.mos_value.specs.declared.fault.ValueFault.TheVariants.{Fault};
ghost use Rattle.mos_value.specs.UpToMemory.{UpToMemory, Becomes};

use crate::Array;
use mos_text::{FaultKind, Scalar, let_go};
use mos_value::ValueFault;
use sqlite_items::at;
use std::alloc::Global;

/// The number of a field.
fn field_number(number: &Scalar) -> Option<u32>
    ensures { result ≡ spec.field_number number.now }
{
    match number {
        Scalar::Int(number) => u32::try_from(*number).ok(),
        _ => None,
    }
}

/// The number of a field, where one is given.
fn numbered(number: Option<&Scalar>) -> Option<u32>
    ensures { result ≡ spec.numbered (option_copied number.entry) }
{
    match number {
        Some(number) => field_number(number),
        None => None,
    }
}

/// An index list but for its last item.
fn front(at: &[Scalar]) -> &[Scalar]
    ensures { result.now ≡ spec.front at.now }
{
    if at.is_empty() {
        at
    } else {
        &at[..at.len() - 1]
    }
}

/// Its last item.
fn last_of(list: &[Scalar]) -> Option<&Scalar>
    ensures { option_copied result ≡ spec.last_of list.now }
{
    at(list, list.len().saturating_sub(1))
}

/// The refusal of a place that an array does not have.
fn outside(value: Scalar) -> Result<(), ValueFault>
    ensures { result ≡ Err (Fault Range) }
{
    let_go(value);
    Err(ValueFault::Fault(FaultKind::Range))
}

impl Array {
    /// A scalar that a cell holds; where cells are records, the last item of `at` is the field's number
    /// from 0. Of a cell that is not there a dynamic array gives the default; a dense one answers RANGE.
    pub fn get(&self, alloc: Global, at: &[Scalar]) -> Result<Scalar, ValueFault>
        ensures { UpToMemory result (spec.get_of at.now self.now) }
    {
        if self.has_fields() {
            self.get_field(alloc, front(at), last_of(at))
        } else {
            self.get_part(alloc, at, None)
        }
    }

    fn get_field(
        &self,
        alloc: Global,
        at: &[Scalar],
        number: Option<&Scalar>,
    ) -> Result<Scalar, ValueFault>
        ensures { UpToMemory result (spec.get_field_of at.now (option_copied number.entry) self.now) }
    {
        match numbered(number) {
            Some(number) => self.get_part(alloc, at, Some(number)),
            None => Err(ValueFault::Fault(FaultKind::Range)),
        }
    }

    /// Writes a scalar into a cell, or into the field whose number is the last item of `at`. A cell that is
    /// not there is made behind the others in a dynamic array, TOOBIG above 1,000,000 cells; in a dense one
    /// it is RANGE. Where it is refused nothing is changed.
    pub fn put(&mut self, alloc: Global, at: &[Scalar], value: Scalar) -> Result<(), ValueFault>
        ensures { Becomes self.old self.new result (spec.put_of at.now value self.old) }
    {
        if self.has_fields() {
            self.put_field(alloc, front(at), last_of(at), value)
        } else {
            self.put_part(alloc, at, None, value)
        }
    }

    fn put_field(
        &mut self,
        alloc: Global,
        at: &[Scalar],
        number: Option<&Scalar>,
        value: Scalar,
    ) -> Result<(), ValueFault>
        ensures { Becomes self.old self.new result (spec.put_field_of at.now (option_copied number.entry) value self.old) }
    {
        match numbered(number) {
            Some(number) => self.put_part(alloc, at, Some(number), value),
            None => outside(value),
        }
    }
}
