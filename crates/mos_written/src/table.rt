//! The numbers of array and record types.
ghost use Rattle.std.specs.Prelude.{◌≡◌, ◌↔◌, ◌≤◌, IsTrue, IfOk, length};
ghost use Rattle.std.specs.List.{list_any};
ghost use Rattle.mos_written.specs.Tables as spec;

use crate::same::{same_array, same_record};
use mos_sorts::{ArraySort, RecordSort, Scope, Sort};
use mos_text::NoMemory;

/// The place of the first array type with the same parts; where none has, that behind the last.
fn place_of_array(arrays: &[ArraySort], parts: &ArraySort) -> usize
    ensures { result ≡ spec.place_by (spec.same_array parts.now) arrays.now }
{
    let mut at = 0;
    for other in arrays {
        if same_array(parts, other) {
            return at;
        }
        at += 1;
    }
    at
}

/// The place of the first record type with the same fields; where none has, that behind the last.
fn place_of_record(records: &[RecordSort], parts: &RecordSort) -> usize
    ensures { result ≡ spec.place_by (spec.same_record parts.now) records.now }
{
    let mut at = 0;
    for other in records {
        if same_record(parts, other) {
            return at;
        }
        at += 1;
    }
    at
}

fn has_array(arrays: &[ArraySort], parts: &ArraySort) -> bool
    ensures { result ≡ list_any (spec.same_array parts.now) arrays.now }
{
    arrays.iter().any(|other| same_array(parts, other))
}

fn has_record(records: &[RecordSort], parts: &RecordSort) -> bool
    ensures { result ≡ list_any (spec.same_record parts.now) records.now }
{
    records.iter().any(|other| same_record(parts, other))
}

/// A place as the number of a type; more types than there are numbers count as want of memory.
fn number_at(place: usize) -> Result<u32, NoMemory>
    ensures { IfOk result (λ number. number ≡ place) }
{
    match u32::try_from(place) {
        Ok(number) => Ok(number),
        Err(_) => Err(NoMemory),
    }
}

/// An array type with its number, which the scope knows from now on.
pub(crate) fn array_numbered(scope: &mut Scope, parts: ArraySort) -> Result<Sort, NoMemory>
    ensures { IfOk result (λ sort. (sort, scope.new) ≡ spec.array_numbered parts scope.old) }
{
    let number = number_at(place_of_array(scope.arrays.as_slice(), &parts))?;
    if !has_array(scope.arrays.as_slice(), &parts) {
        scope.arrays.push(parts)?;
    }
    Ok(Sort::Array(number))
}

/// A record type with its number, which the scope knows from now on.
pub(crate) fn record_numbered(scope: &mut Scope, parts: RecordSort) -> Result<Sort, NoMemory>
    ensures { IfOk result (λ sort. (sort, scope.new) ≡ spec.record_numbered parts scope.old) }
{
    let number = number_at(place_of_record(scope.records.as_slice(), &parts))?;
    if !has_record(scope.records.as_slice(), &parts) {
        scope.records.push(parts)?;
    }
    Ok(Sort::Record(number))
}
