//! What a name stands for at a place.
ghost use Rattle.std.specs.Prelude.{◌≡◌, ◌||◌, ◌≤◌, [], None, length, map, option_copied, option_map, OnOk};
ghost use Rattle.std.specs.List.{list_any};
ghost use Rattle.std.specs.Str.{bytes_eq};
ghost use Rattle.mos_names.specs.NameLists.{has_name, place_of};
ghost use Rattle.mos_text.specs.declared.kind.Kind.TheVariants.{Twice};
ghost use Rattle.mos_sorts.specs.Kinds.{sooner};
ghost use Rattle.mos_sorts.specs.Scopes as spec;

use crate::worst::note;
use crate::{Bound, Role, Scope, Sort, Where};
use mos_names::Names;
use mos_text::{Kind, NoMemory, SourceText};
use std::alloc::Global;

/// Whether both are one name.
pub fn same_name(a: &SourceText, b: &SourceText) -> bool
    ensures { result ≡ bytes_eq a.now b.now }
{
    a.as_str() == b.as_str()
}

/// The type of the last index name that is this.
pub fn bound_sort(bound: &[Bound], name: &SourceText) -> Option<Option<Sort>>
    ensures { result ≡ spec.bound_sort name.now None bound.now }
{
    let mut found = None;
    for index in bound {
        if same_name(name, &index.name) {
            found = Some(index.sort);
        }
    }
    found
}

/// What the model declares a name as.
fn declared_in_model<'a>(scope: &'a Scope, name: &SourceText) -> Option<(Where, &'a Role)>
    ensures { option_map (λ p. (p.0, p.1.now)) result ≡ spec.declared_in_model name.now scope.now }
{
    match scope.model.latest(name) {
        Some(entry) => Some((Where::Model, &entry.role)),
        None => None,
    }
}

/// What a name is declared as: a name of the routine hides one of the model.
pub fn declared_as<'a>(scope: &'a Scope, name: &SourceText) -> Option<(Where, &'a Role)>
    ensures { option_map (λ p. (p.0, p.1.now)) result ≡ spec.declared_as name.now scope.now }
{
    match scope.own.latest(name) {
        Some(entry) => Some((Where::Own, &entry.role)),
        None => declared_in_model(scope, name),
    }
}

fn has_bound(bound: &[Bound], name: &SourceText) -> bool
    ensures { result ≡ list_any (λ b. bytes_eq name.now b.name) bound.now }
{
    bound.iter().any(|index| same_name(name, &index.name))
}

/// Whether it is one of these names.
pub fn is_among(names: &[SourceText], name: &SourceText) -> bool
    ensures { result ≡ has_name name.now names.now }
{
    names.iter().any(|other| same_name(name, other))
}

/// Whether the routine or the model has declared a name so far.
fn is_entered(scope: &Scope, name: &SourceText) -> bool
    ensures { result ≡ list_any (λ e. bytes_eq name.now e.name) (spec.entries_here scope.now) }
{
    if scope.inside {
        scope.own.has(name)
    } else {
        scope.model.has(name)
    }
}

/// Whether a name is declared in the routine or the model that the place stands in, or is an index
/// name there.
pub fn is_declared_here(scope: &Scope, bound: &[Bound], name: &SourceText) -> bool
    ensures { result ≡ spec.is_declared_here name.now scope.now bound.now }
{
    is_entered(scope, name) || has_bound(bound, name)
}

/// Notes that a name is declared twice.
pub fn note_twice(
    alloc: Global,
    worst: &mut Option<Kind>,
    name: &SourceText,
) -> Result<(), NoMemory>
    ensures { OnOk result (worst.new ≡ sooner worst.old (Twice name.now)) }
{
    let name = name.text().copy(alloc)?;
    note(worst, Kind::Twice(name));
    Ok(())
}

/// The place of a name among these, from 0; where it is none of them, that behind the last.
pub fn place_of(names: &[SourceText], name: &SourceText) -> usize
    ensures place { result ≡ place_of name.now names.now }
    ensures within { result ≤ length names.now }
{
    let mut at = 0;
    for other in names {
        if same_name(name, other) {
            return at;
        }
        at += 1;
    }
    at
}

/// Notes a name that clashes with another.
pub fn note_clash(
    alloc: Global,
    worst: &mut Option<Kind>,
    clashes: bool,
    name: &SourceText,
) -> Result<(), NoMemory>
    ensures { OnOk result (worst.new ≡ spec.twice_if clashes name.now worst.old) }
{
    if clashes {
        note_twice(alloc, worst, name)
    } else {
        Ok(())
    }
}

/// Notes the names that are declared already, or stand among these before.
pub fn note_declared_twice(
    alloc: Global,
    worst: &mut Option<Kind>,
    scope: &Scope,
    bound: &[Bound],
    names: &[SourceText],
) -> Result<(), NoMemory>
    ensures { OnOk result (worst.new ≡ spec.all_twice scope.now bound.now names.now worst.old) }
{
    let mut before = Names::new(alloc);
    for name in names {
        let clashes = is_declared_here(scope, bound, name) || before.has(name.text());
        note_clash(alloc, worst, clashes, name)?;
        before.note(name.text())?;
    }
    Ok(())
}
