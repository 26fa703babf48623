//! What a name stands for at a place, and how it is declared.
ghost use Rattle.std.specs.Prelude.{◌≡◌, [], OnOk};
ghost use Rattle.mos_sorts.specs.Scopes as spec;
ghost use Rattle.mos_sorts.specs.Meanings.{as_meaning};

use crate::names::{bound_sort, declared_as, is_declared_here, note_twice};
use crate::{Bound, Entry, Role, Scope, Sort, Where};
use mos_text::{Kind, NoMemory, SourceText};
use std::alloc::Global;

/// What a name stands for at a place.
#[derive(Clone, Copy)]
pub enum Meaning<'a> {
    /// An index name, with its type where it has one.
    Index(Option<Sort>),
    Declared(Where, &'a Role),
    Undeclared,
}

/// What a name that is no index name stands for.
fn meaning_in_scope<'a>(scope: &'a Scope, name: &SourceText) -> Meaning<'a>
    ensures { as_meaning result ≡ spec.of_declared (spec.declared_as name.now scope.now) }
{
    match declared_as(scope, name) {
        Some((place, role)) => Meaning::Declared(place, role),
        None => Meaning::Undeclared,
    }
}

/// What a name stands for in a scope, below these index names.
pub fn meaning_of<'a>(scope: &'a Scope, bound: &[Bound], name: &SourceText) -> Meaning<'a>
    ensures { as_meaning result ≡ spec.meaning_of name.now scope.now bound.now }
{
    match bound_sort(bound, name) {
        Some(sort) => Meaning::Index(sort),
        None => meaning_in_scope(scope, name),
    }
}

/// Declares a name where the place stands: in the routine, or else in the model.
pub fn declare(
    alloc: Global,
    scope: &mut Scope,
    name: &SourceText,
    role: Role,
) -> Result<(), NoMemory>
    ensures { OnOk result (scope.new ≡ spec.declare name.now role scope.old) }
{
    let name = name.copy(alloc)?;
    let entry = Entry { name, role };
    if scope.inside {
        scope.own.push(alloc, entry)?;
    } else {
        scope.model.push(alloc, entry)?;
    }
    Ok(())
}

/// Notes a name that is declared already.
pub fn note_name_twice(
    alloc: Global,
    worst: &mut Option<Kind>,
    scope: &Scope,
    name: &SourceText,
) -> Result<(), NoMemory>
    ensures { OnOk result (worst.new
        ≡ spec.twice_if (spec.is_declared_here name.now scope.now []) name.now worst.old) }
{
    if is_declared_here(scope, &[], name) {
        note_twice(alloc, worst, name)?;
    }
    Ok(())
}
