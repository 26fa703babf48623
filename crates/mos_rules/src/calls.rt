//! Calls of routines and of the library, and cells of arrays, by their arguments or indexes.
ghost use Rattle.std.specs.Prelude.{◌≡◌, IfOk, OnOk, length, option_copied};
ghost use Rattle.mos_sorts.specs.Kinds.{least};
ghost use Rattle.mos_rules.specs.Results.{without_type, in_row};
ghost use Rattle.mos_rules.specs.Calls as spec;

use mos_sorts::library::{note_call, sort_given};
use mos_sorts::worst::{note, note_if};
use mos_sorts::{ArraySort, Callable, Function, Signature, Sort, Typed, Where};
use mos_text::{Kind, NoMemory, SourceText, let_go};
use sqlite_items::{Items, at};
use std::alloc::Global;

/// Notes that nothing gives an expression a type.
pub fn without_type(worst: &mut Option<Kind>) -> Typed
    ensures tree { result ≡ (without_type worst.old).tree }
    ensures worst { worst.new ≡ (without_type worst.old).worst }
{
    note(worst, Kind::NoType);
    Typed::Wrong
}

/// The same of an expression with such parts.
pub fn without_type_of(worst: &mut Option<Kind>, parts: Items<Typed>) -> Typed
    ensures tree { result ≡ (without_type worst.old).tree }
    ensures worst { worst.new ≡ (without_type worst.old).worst }
{
    let_go(parts);
    without_type(worst)
}

/// Notes a wrong number of arguments or indexes.
pub fn note_number(worst: &mut Option<Kind>, wanted: usize, all: &[Typed])
    ensures { worst.new ≡ least worst.old (spec.wrong_number wanted all.now) }
{
    note_if(worst, all.len() != wanted, Kind::Args);
}

fn routine_value(
    alloc: Global,
    worst: &mut Option<Kind>,
    sort: Option<Sort>,
    name: &SourceText,
    all: Items<Typed>,
) -> Result<Typed, NoMemory>
    ensures tree { IfOk result (λ x. x ≡ (spec.routine_value sort name.now all worst.old).tree) }
    ensures worst { OnOk result (worst.new
        ≡ (spec.routine_value sort name.now all worst.old).worst) }
{
    match sort {
        Some(sort) => Ok(Typed::Routine(sort, name.copy(alloc)?, all)),
        None => Ok(without_type_of(worst, all)),
    }
}

/// A call of a routine of the source.
pub fn routine(
    alloc: Global,
    worst: &mut Option<Kind>,
    signature: &Signature,
    name: &SourceText,
    all: Items<Typed>,
) -> Result<Typed, NoMemory>
    ensures tree { IfOk result (λ x. x
        ≡ (spec.routine signature.now name.now (in_row all worst.old)).tree) }
    ensures worst { OnOk result (worst.new
        ≡ (spec.routine signature.now name.now (in_row all worst.old)).worst) }
{
    note_number(worst, signature.formals.len(), all.as_slice());
    routine_value(alloc, worst, signature.result, name, all)
}

fn library_value(
    worst: &mut Option<Kind>,
    sort: Option<Sort>,
    function: Function,
    all: Items<Typed>,
) -> Typed
    ensures tree { result ≡ (spec.library_value sort function all worst.old).tree }
    ensures worst { worst.new ≡ (spec.library_value sort function all worst.old).worst }
{
    match sort {
        Some(sort) => Typed::Library(sort, function, all),
        None => without_type_of(worst, all),
    }
}

/// A call of the library.
pub fn library(
    alloc: Global,
    worst: &mut Option<Kind>,
    callable: Callable,
    all: Items<Typed>,
) -> Result<Typed, NoMemory>
    ensures tree { IfOk result (λ x. x ≡ (spec.library callable (in_row all worst.old)).tree) }
    ensures worst { OnOk result (worst.new ≡ (spec.library callable (in_row all worst.old)).worst) }
{
    note_call(alloc, worst, callable.takes, all.as_slice())?;
    let sort = sort_given(callable.gives, all.as_slice());
    Ok(library_value(worst, sort, callable.function, all))
}

/// The array type of this number.
pub fn array_of(arrays: &[ArraySort], sort: Sort) -> Option<&ArraySort>
    ensures { option_copied result ≡ spec.array_of arrays.now sort }
{
    match sort {
        Sort::Array(number) => at(arrays, number as usize),
        _ => None,
    }
}

/// A cell, where the name is that of an array.
pub fn cell(
    alloc: Global,
    worst: &mut Option<Kind>,
    array: Option<&ArraySort>,
    place: Where,
    name: &SourceText,
    indexes: Items<Typed>,
) -> Result<Typed, NoMemory>
    ensures tree { IfOk result
        (λ x. x
        ≡ (spec.cell (option_copied array.entry) place name.now
        (in_row indexes worst.old)).tree) }
    ensures worst { OnOk result
        (worst.new
        ≡ (spec.cell (option_copied array.entry) place name.now
        (in_row indexes worst.old)).worst) }
{
    match array {
        Some(array) => {
            note_number(worst, array.indexes.len(), indexes.as_slice());
            Ok(Typed::Cell {
                sort: array.cell,
                dynamic: array.dynamic,
                place,
                name: name.copy(alloc)?,
                indexes,
            })
        }
        None => Ok(without_type_of(worst, indexes)),
    }
}
