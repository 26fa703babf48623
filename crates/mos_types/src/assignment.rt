//! Assignments.
ghost use Rattle.std.specs.Prelude.{◌≡◌, IfOk, OnOk, option_copied};
ghost use Rattle.mos_sorts.specs.Meanings.{as_meaning};
ghost use Rattle.mos_rules.specs.Results.{with_tree};
ghost use Rattle.mos_types.specs.Assignments as spec;

use crate::looking::{look, named, returned, with_brackets};
use mos_rules::Side;
use mos_rules::forms::operand;
use mos_sorts::fits::fits;
use mos_sorts::meaning::{Meaning, meaning_of};
use mos_sorts::operators::{added, taken};
use mos_sorts::trees::{given, sort_of};
use mos_sorts::vocabulary::undeclared;
use mos_sorts::worst::note;
use mos_sorts::{Bound, Operation, Scope, Sort, Typed, Undeclared, Where};
use mos_text::{Kind, NoMemory, SourceText};
use mos_tree::{Assignment, Expr, Reference};
use std::alloc::Global;

/// An assignment with types.
#[derive(Drop)]
pub struct Assigned {
    /// What is assigned to.
    pub target: Typed,
    /// The right side, converted.
    pub value: Typed,
    /// What `+=` and `-=` do with the old value and the right side; none for `:=`.
    pub operation: Option<Operation>,
    /// The type of the variable that the assignment declares, where it does.
    pub declares: Option<Sort>,
}

/// The typed tree of the left side of an assignment.
fn look_target(
    alloc: Global,
    worst: &mut Option<Kind>,
    scope: &Scope,
    bound: &[Bound],
    target: &Reference,
) -> Result<Typed, NoMemory>
    ensures tree { IfOk result
        (λ x. x ≡ (spec.look_target target.now scope.now bound.now worst.old).tree) }
    ensures worst { OnOk result
        (worst.new ≡ (spec.look_target target.now scope.now bound.now worst.old).worst) }
{
    let side = Side::Target;
    match target {
        Reference::Name(name) => named(alloc, worst, scope, bound, side, name, None),
        Reference::Field(name, field) => {
            named(alloc, worst, scope, bound, side, name, Some(field))
        }
        Reference::Cell(name, all) => {
            with_brackets(alloc, worst, scope, bound, side, name, all.as_slice(), None)
        }
        Reference::CellField(name, all, field) => {
            with_brackets(
                alloc,
                worst,
                scope,
                bound,
                side,
                name,
                all.as_slice(),
                Some(field),
            )
        }
        Reference::Returned => Ok(returned(worst, scope.result)),
    }
}

fn set_to(target: Sort, value: Sort) -> Option<Option<Operation>>
    ensures { result ≡ spec.set_to target value }
{
    if fits(target, value) {
        Some(None)
    } else {
        None
    }
}

fn added_to(target: Sort, value: Sort) -> Option<Option<Operation>>
    ensures { result ≡ spec.added_to target value }
{
    match added(target, value) {
        Some((operation, _)) => Some(Some(operation)),
        None => None,
    }
}

fn taken_from(target: Sort, value: Sort) -> Option<Option<Operation>>
    ensures { result ≡ spec.taken_from target value }
{
    match taken(target, value) {
        Some((operation, _)) => Some(Some(operation)),
        None => None,
    }
}

fn done(operator: Assignment, target: Sort, value: Sort) -> Option<Option<Operation>>
    ensures { result ≡ spec.done operator target value }
{
    match operator {
        Assignment::Set => set_to(target, value),
        Assignment::Add => added_to(target, value),
        Assignment::Take => taken_from(target, value),
    }
}

/// What an assignment does, where both sides have types and it does anything.
fn done_with(
    operator: Assignment,
    target: Option<Sort>,
    value: Option<Sort>,
) -> Option<Option<Operation>>
    ensures { result ≡ spec.done_with operator target value }
{
    match (target, value) {
        (Some(target), Some(value)) => done(operator, target, value),
        _ => None,
    }
}

/// The right side, converted for what is done with it.
fn value_for(
    alloc: Global,
    operation: Option<Operation>,
    target: Option<Sort>,
    value: Typed,
) -> Result<Typed, NoMemory>
    ensures { IfOk result (λ x. x ≡ spec.value_for operation target value) }
{
    match (operation, target) {
        (None, Some(sort)) => given(alloc, sort, value),
        (None, None) => Ok(value),
        (Some(operation), _) => operand(alloc, operation, None, value),
    }
}

/// An assignment to what is there.
fn assigned_to(
    alloc: Global,
    worst: &mut Option<Kind>,
    operator: Assignment,
    target: Typed,
    value: Typed,
) -> Result<Assigned, NoMemory>
    ensures assigned { IfOk result
        (λ x. spec.Is x (spec.assigned_to operator target (with_tree value worst.old))) }
    ensures worst { OnOk result
        (worst.new ≡ (spec.assigned_to operator target (with_tree value worst.old)).worst) }
{
    match done_with(operator, sort_of(&target), sort_of(&value)) {
        Some(operation) => {
            let value = value_for(alloc, operation, sort_of(&target), value)?;
            Ok(Assigned {
                target,
                value,
                operation,
                declares: None,
            })
        }
        None => {
            note(worst, Kind::NoType);
            Ok(Assigned {
                target,
                value,
                operation: None,
                declares: None,
            })
        }
    }
}

fn is_free(found: Undeclared) -> bool
    ensures { result ≡ spec.is_free found }
{
    match found {
        Undeclared::Jobs => false,
        _ => true,
    }
}

fn may_declare(scope: &Scope, name: &SourceText, meaning: Meaning<'_>) -> bool
    ensures { result ≡ spec.may_declare scope.now name.now (as_meaning meaning.entry) }
{
    match meaning {
        Meaning::Undeclared => {
            scope.implicit && is_free(undeclared(scope.jobs, name.as_bytes()))
        }
        _ => false,
    }
}

/// The name that an assignment declares.
fn new_name<'a>(
    scope: &Scope,
    bound: &[Bound],
    operator: Assignment,
    target: &'a Reference,
) -> Option<&'a SourceText>
    ensures { option_copied result ≡ spec.new_name scope.now bound.now operator target.now }
{
    match (operator, target) {
        (Assignment::Set, Reference::Name(name)) => {
            if may_declare(scope, name, meaning_of(scope, bound, name)) {
                Some(name)
            } else {
                None
            }
        }
        _ => None,
    }
}

fn variable_sort(sort: Option<Sort>) -> Option<Sort>
    ensures { result ≡ spec.variable_sort sort }
{
    match sort {
        Some(Sort::EmptySet | Sort::EmptyList) => None,
        other => other,
    }
}

fn declared_where(inside: bool) -> Where
    ensures { result ≡ spec.declared_where inside }
{
    if inside { Where::Own } else { Where::Model }
}

/// An assignment that declares a variable.
fn declaring(
    alloc: Global,
    worst: &mut Option<Kind>,
    inside: bool,
    name: &SourceText,
    value: Typed,
) -> Result<Assigned, NoMemory>
    ensures assigned { IfOk result
        (λ x. spec.Is x (spec.declaring inside name.now (with_tree value worst.old))) }
    ensures worst { OnOk result
        (worst.new ≡ (spec.declaring inside name.now (with_tree value worst.old)).worst) }
{
    match variable_sort(sort_of(&value)) {
        Some(sort) => Ok(Assigned {
            target: Typed::Name(sort, declared_where(inside), name.copy(alloc)?),
            value,
            operation: None,
            declares: Some(sort),
        }),
        None => {
            note(worst, Kind::NoType);
            Ok(Assigned {
                target: Typed::Wrong,
                value,
                operation: None,
                declares: None,
            })
        }
    }
}

/// An assignment in a scope, below these index names. The variable that it declares is not declared
/// yet.
pub fn look_assignment(
    alloc: Global,
    worst: &mut Option<Kind>,
    scope: &Scope,
    bound: &[Bound],
    target: &Reference,
    operator: Assignment,
    value: &Expr,
) -> Result<Assigned, NoMemory>
    ensures assigned { IfOk result (λ x. spec.Is x
        (spec.look_assignment target.now operator value.now scope.now bound.now worst.old)) }
    ensures worst { OnOk result (worst.new
        ≡
        (spec.look_assignment target.now operator value.now scope.now bound.now worst.old).worst) }
{
    match new_name(scope, bound, operator, target) {
        Some(name) => {
            let value = look(alloc, worst, scope, bound, value)?;
            declaring(alloc, worst, scope.inside, name, value)
        }
        None => {
            let target = look_target(alloc, worst, scope, bound, target)?;
            let value = look(alloc, worst, scope, bound, value)?;
            assigned_to(alloc, worst, operator, target, value)
        }
    }
}
