//! Names and what may stand behind them, on either side of an assignment.
ghost use Rattle.std.specs.Prelude.{◌≡◌, [], IfOk, OnOk, option_copied};
ghost use Rattle.mos_sorts.specs.Kinds.{least};
ghost use Rattle.mos_sorts.specs.Meanings.{as_meaning};
ghost use Rattle.mos_rules.specs.Results.{in_row};
ghost use Rattle.mos_rules.specs.Rows.{expects};
ghost use Rattle.mos_rules.specs.Names as spec;

use crate::calls::{array_of, cell, library, routine, without_type, without_type_of};
use crate::{Expected, Side};
use mos_sorts::meaning::Meaning;
use mos_sorts::vocabulary::undeclared;
use mos_sorts::worst::{note, note_if, note_left_out, note_unknown};
use mos_sorts::{ArraySort, Function, Role, Scope, Signature, Sort, Typed, Undeclared, Where};
use mos_text::{Kind, NoMemory, SourceText};
use sqlite_items::Items;
use std::alloc::Global;

fn note_routine_left_out(
    alloc: Global,
    worst: &mut Option<Kind>,
    brackets: bool,
    name: &SourceText,
) -> Result<(), NoMemory>
    ensures { OnOk result (worst.new ≡ least worst.old (spec.wrong_left_out brackets name.now)) }
{
    if brackets {
        note_left_out(alloc, worst, name)
    } else {
        note_unknown(alloc, worst, name)
    }
}

/// Notes a name that is a function or type where it is not declared, and is no variable.
fn note_as_target(
    alloc: Global,
    worst: &mut Option<Kind>,
    side: Side,
    name: &SourceText,
) -> Result<(), NoMemory>
    ensures { OnOk result (worst.new ≡ least worst.old (spec.wrong_as_target side name.now)) }
{
    match side {
        Side::Value => Ok(()),
        _ => note_unknown(alloc, worst, name),
    }
}

fn note_undeclared(
    alloc: Global,
    worst: &mut Option<Kind>,
    side: Side,
    brackets: bool,
    name: &SourceText,
    found: Undeclared,
) -> Result<(), NoMemory>
    ensures { OnOk result
        (worst.new ≡ least worst.old (spec.wrong_undeclared side brackets name.now found)) }
{
    match found {
        Undeclared::LeftOut => note_routine_left_out(alloc, worst, brackets, name),
        Undeclared::Jobs => {
            note(worst, Kind::Jobs);
            Ok(())
        }
        Undeclared::Nothing => note_unknown(alloc, worst, name),
        _ => note_as_target(alloc, worst, side, name),
    }
}

/// Whether nothing can be assigned to a name: a constant, a parameter or an index name.
fn is_constant(meaning: Meaning<'_>) -> bool
    ensures { result ≡ spec.is_constant (as_meaning meaning.entry) }
{
    match meaning {
        Meaning::Index(_) => true,
        Meaning::Declared(_, Role::Constant(_, _) | Role::Parameter(_)) => true,
        _ => false,
    }
}

fn note_target(worst: &mut Option<Kind>, side: Side, meaning: Meaning<'_>)
    ensures { worst.new ≡ least worst.old (spec.wrong_target side (as_meaning meaning.entry)) }
{
    match side {
        Side::Target => note_if(worst, is_constant(meaning), Kind::Const),
        _ => {}
    }
}

/// Notes what is wrong with a name itself where it stands, with brackets behind it or without.
pub fn note_name(
    alloc: Global,
    worst: &mut Option<Kind>,
    side: Side,
    brackets: bool,
    name: &SourceText,
    jobs: bool,
    meaning: Meaning<'_>,
) -> Result<(), NoMemory>
    ensures { OnOk result
        (worst.new
        ≡ least worst.old (spec.wrong_name side brackets name.now jobs
        (as_meaning meaning.entry))) }
{
    match meaning {
        Meaning::Undeclared => {
            let found = undeclared(jobs, name.as_bytes());
            note_undeclared(alloc, worst, side, brackets, name, found)
        }
        other => {
            note_target(worst, side, other);
            Ok(())
        }
    }
}

/// A call of a routine, where the name stands for a value.
fn routine_on(
    alloc: Global,
    worst: &mut Option<Kind>,
    side: Side,
    signature: &Signature,
    name: &SourceText,
    all: Items<Typed>,
) -> Result<Typed, NoMemory>
    ensures tree { IfOk result
        (λ x. x ≡ (spec.routine_on side signature.now name.now (in_row all worst.old)).tree) }
    ensures worst { OnOk result
        (worst.new ≡ (spec.routine_on side signature.now name.now (in_row all worst.old)).worst) }
{
    match side {
        Side::Value => routine(alloc, worst, signature, name, all),
        _ => Ok(without_type_of(worst, all)),
    }
}

/// A call of what is not declared, where the name stands for a value.
fn undeclared_on(
    alloc: Global,
    worst: &mut Option<Kind>,
    side: Side,
    found: Undeclared,
    all: Items<Typed>,
) -> Result<Typed, NoMemory>
    ensures tree { IfOk result (λ x. x
        ≡ (spec.undeclared_on side found (in_row all worst.old)).tree) }
    ensures worst { OnOk result (worst.new
        ≡ (spec.undeclared_on side found (in_row all worst.old)).worst) }
{
    match (side, found) {
        (Side::Value, Undeclared::Function(callable)) => library(alloc, worst, callable, all),
        _ => Ok(without_type_of(worst, all)),
    }
}

fn index_name(
    alloc: Global,
    worst: &mut Option<Kind>,
    sort: Option<Sort>,
    name: &SourceText,
) -> Result<Typed, NoMemory>
    ensures tree { IfOk result (λ x. x ≡ (spec.index_name sort name.now worst.old).tree) }
    ensures worst { OnOk result (worst.new ≡ (spec.index_name sort name.now worst.old).worst) }
{
    match sort {
        Some(sort) => Ok(Typed::Name(sort, Where::Index, name.copy(alloc)?)),
        None => Ok(without_type(worst)),
    }
}

fn declared_name(
    alloc: Global,
    worst: &mut Option<Kind>,
    side: Side,
    role: &Role,
    place: Where,
    name: &SourceText,
) -> Result<Typed, NoMemory>
    ensures tree { IfOk result (λ x. x
        ≡ (spec.declared_name side role.now place name.now worst.old).tree) }
    ensures worst { OnOk result (worst.new
        ≡ (spec.declared_name side role.now place name.now worst.old).worst) }
{
    match role {
        Role::Constant(sort, _) => Ok(Typed::Constant(*sort, place, name.copy(alloc)?)),
        Role::Parameter(sort) => Ok(Typed::Name(*sort, place, name.copy(alloc)?)),
        Role::Variable(sort) => Ok(Typed::Name(*sort, place, name.copy(alloc)?)),
        Role::Formal(sort) => Ok(Typed::Name(*sort, place, name.copy(alloc)?)),
        Role::Record(_) => Ok(without_type(worst)),
        Role::Routine(signature) => {
            routine_on(alloc, worst, side, signature, name, Items::new(alloc))
        }
    }
}

/// A name without brackets.
pub fn bare(
    alloc: Global,
    worst: &mut Option<Kind>,
    side: Side,
    jobs: bool,
    meaning: Meaning<'_>,
    name: &SourceText,
) -> Result<Typed, NoMemory>
    ensures tree { IfOk result
        (λ x. x ≡ (spec.bare side jobs (as_meaning meaning.entry) name.now worst.old).tree) }
    ensures worst { OnOk result
        (worst.new ≡ (spec.bare side jobs (as_meaning meaning.entry) name.now worst.old).worst) }
{
    match meaning {
        Meaning::Index(sort) => index_name(alloc, worst, sort, name),
        Meaning::Declared(place, role) => declared_name(alloc, worst, side, role, place, name),
        Meaning::Undeclared => {
            let found = undeclared(jobs, name.as_bytes());
            undeclared_on(alloc, worst, side, found, Items::new(alloc))
        }
    }
}

fn declared_with(
    alloc: Global,
    worst: &mut Option<Kind>,
    side: Side,
    arrays: &[ArraySort],
    role: &Role,
    place: Where,
    name: &SourceText,
    all: Items<Typed>,
) -> Result<Typed, NoMemory>
    ensures tree { IfOk result
        (λ x. x
        ≡ (spec.declared_with side arrays.now role.now place name.now
        (in_row all worst.old)).tree) }
    ensures worst { OnOk result
        (worst.new
        ≡ (spec.declared_with side arrays.now role.now place name.now
        (in_row all worst.old)).worst) }
{
    match role {
        Role::Variable(sort) | Role::Formal(sort) => {
            cell(alloc, worst, array_of(arrays, *sort), place, name, all)
        }
        Role::Routine(signature) => routine_on(alloc, worst, side, signature, name, all),
        _ => Ok(without_type_of(worst, all)),
    }
}

/// A name with indexes or arguments.
pub fn applied(
    alloc: Global,
    worst: &mut Option<Kind>,
    side: Side,
    scope: &Scope,
    meaning: Meaning<'_>,
    name: &SourceText,
    all: Items<Typed>,
) -> Result<Typed, NoMemory>
    ensures tree { IfOk result
        (λ x. x
        ≡ (spec.applied side scope.now (as_meaning meaning.entry) name.now
        (in_row all worst.old)).tree) }
    ensures worst { OnOk result
        (worst.new
        ≡ (spec.applied side scope.now (as_meaning meaning.entry) name.now
        (in_row all worst.old)).worst) }
{
    match meaning {
        Meaning::Index(_) => Ok(without_type_of(worst, all)),
        Meaning::Declared(place, role) => {
            declared_with(
                alloc,
                worst,
                side,
                scope.arrays.as_slice(),
                role,
                place,
                name,
                all,
            )
        }
        Meaning::Undeclared => {
            let found = undeclared(scope.jobs, name.as_bytes());
            undeclared_on(alloc, worst, side, found, all)
        }
    }
}

fn of_array<'a>(array: Option<&'a ArraySort>) -> Expected<'a>
    ensures { expects result ≡ spec.of_array (option_copied array.entry) }
{
    match array {
        Some(array) => Expected::Indexes(array.indexes.as_slice()),
        None => Expected::Plain,
    }
}

/// What is expected of so many arguments of a function or procedure of the library.
pub fn of_library(function: Function, count: usize) -> Expected<'static>
    ensures { expects result ≡ spec.of_library function count }
{
    match function {
        Function::Write | Function::Writeln => Expected::Printed,
        Function::Finalize => Expected::AsSets,
        Function::Compile if count == 3 => Expected::Files,
        _ => Expected::Plain,
    }
}

fn of_routine<'a>(side: Side, signature: &'a Signature) -> Expected<'a>
    ensures { expects result ≡ spec.of_routine side signature.now }
{
    match side {
        Side::Value => Expected::Formals(signature.formals.as_slice()),
        _ => Expected::Plain,
    }
}

fn of_undeclared(side: Side, found: Undeclared, count: usize) -> Expected<'static>
    ensures { expects result ≡ spec.of_undeclared side found count }
{
    match (side, found) {
        (Side::Value, Undeclared::Function(callable)) => of_library(callable.function, count),
        _ => Expected::Plain,
    }
}

fn of_role<'a>(side: Side, arrays: &'a [ArraySort], role: &'a Role) -> Expected<'a>
    ensures { expects result ≡ spec.of_role side arrays.now role.now }
{
    match role {
        Role::Variable(sort) | Role::Formal(sort) => of_array(array_of(arrays, *sort)),
        Role::Routine(signature) => of_routine(side, signature),
        _ => Expected::Plain,
    }
}

/// What is expected of what stands in the brackets of a name.
pub fn expected_by<'a>(
    side: Side,
    scope: &'a Scope,
    meaning: Meaning<'a>,
    name: &SourceText,
    count: usize,
) -> Expected<'a>
    ensures { expects result
        ≡ spec.expected_by side scope.now (as_meaning meaning.entry) name.now count }
{
    match meaning {
        Meaning::Index(_) => Expected::Plain,
        Meaning::Declared(_, role) => of_role(side, scope.arrays.as_slice(), role),
        Meaning::Undeclared => {
            of_undeclared(side, undeclared(scope.jobs, name.as_bytes()), count)
        }
    }
}
