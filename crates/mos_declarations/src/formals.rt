//! The formals of a heading, and its result.
ghost use Rattle.std.specs.Prelude.{◌≡◌, ◌++◌, IfOk, OnOk};
ghost use Rattle.mos_declarations.specs.Headings as spec;
ghost use Rattle.mos_sorts.specs.Scopes.{declare_all as with_all};
ghost use Rattle.mos_sorts.specs.declared.scope.Role.TheVariants as role;

use crate::written::written;
use mos_sorts::bound::bind;
use mos_sorts::meaning::declare;
use mos_sorts::names::note_declared_twice;
use mos_sorts::{Role, Scope, Sort};
use mos_text::{Kind, NoMemory, SourceText};
use mos_tree::{BaseType, FormalGroup};
use mos_written::{base_sort, note_structured};
use sqlite_items::Items;
use std::alloc::Global;

fn declare_all(
    alloc: Global,
    scope: &mut Scope,
    names: &[SourceText],
    sort: Sort,
) -> Result<(), NoMemory>
    ensures { OnOk result (scope.new ≡ with_all names.now (role.Formal sort) scope.old) }
{
    for name in names {
        declare(alloc, scope, name, Role::Formal(sort))?;
    }
    Ok(())
}

/// Declares formals; those whose type breaks a rule are names without a type for the rest of the heading.
fn declare_formals(
    alloc: Global,
    scope: &mut Scope,
    names: &[SourceText],
    sort: Option<Sort>,
) -> Result<(), NoMemory>
    ensures { OnOk result (scope.new ≡ spec.with_formals names.now sort scope.old) }
{
    match sort {
        Some(sort) => declare_all(alloc, scope, names, sort),
        None => bind(alloc, &mut scope.bound, names, None),
    }
}

/// Adds the type once for each name.
fn add_each(
    all: &mut Items<Option<Sort>>,
    names: &[SourceText],
    sort: Option<Sort>,
) -> Result<(), NoMemory>
    ensures { OnOk result (all.new ≡ all.old ++ spec.for_each names.now sort) }
{
    for _name in names {
        all.push(sort)?;
    }
    Ok(())
}

/// Formals of one type; their types are added to these.
fn group(
    alloc: Global,
    worst: &mut Option<Kind>,
    scope: &mut Scope,
    all: &mut Items<Option<Sort>>,
    group: &FormalGroup,
) -> Result<(), NoMemory>
    ensures sorts { OnOk result
        (all.new ≡ all.old ++ (spec.group_found group.now scope.old worst.old).sorts) }
    ensures worst { OnOk result
        (worst.new ≡ (spec.group_found group.now scope.old worst.old).worst) }
    ensures scope { OnOk result
        (scope.new ≡ (spec.group_found group.now scope.old worst.old).scope) }
{
    let names = group.names.as_slice();
    note_declared_twice(alloc, worst, scope, scope.bound.as_slice(), names)?;
    let found = written(alloc, worst, scope, &group.typ)?;
    add_each(all, names, found.sort)?;
    declare_formals(alloc, scope, names, found.sort)?;
    Ok(())
}

/// The formals of a heading, group by group, with the types of all.
pub fn formals(
    alloc: Global,
    worst: &mut Option<Kind>,
    scope: &mut Scope,
    groups: &[FormalGroup],
) -> Result<Items<Option<Sort>>, NoMemory>
    ensures sorts { IfOk result
        (λ sorts. sorts ≡ (spec.formals_found groups.now scope.old worst.old).sorts) }
    ensures worst { OnOk result
        (worst.new ≡ (spec.formals_found groups.now scope.old worst.old).worst) }
    ensures scope { OnOk result
        (scope.new ≡ (spec.formals_found groups.now scope.old worst.old).scope) }
{
    let mut all = Items::new(alloc);
    for one in groups {
        group(alloc, worst, scope, &mut all, one)?;
    }
    Ok(all)
}

/// The type of a function's result, which is a scalar.
fn base_result(
    alloc: Global,
    worst: &mut Option<Kind>,
    scope: &Scope,
    base: &BaseType,
) -> Result<Option<Sort>, NoMemory>
    ensures sort { IfOk result (λ sort. sort ≡ spec.result_sort (Some base.now) scope.now) }
    ensures worst { OnOk result
        (worst.new ≡ spec.after_result (Some base.now) scope.now worst.old) }
{
    let sort = base_sort(alloc, worst, scope, base)?;
    note_structured(worst, sort);
    Ok(sort)
}

/// The type of the result; a procedure has none.
pub fn result_sort(
    alloc: Global,
    worst: &mut Option<Kind>,
    scope: &Scope,
    written: &Option<BaseType>,
) -> Result<Option<Sort>, NoMemory>
    ensures sort { IfOk result (λ sort. sort ≡ spec.result_sort written.now scope.now) }
    ensures worst { OnOk result (worst.new ≡ spec.after_result written.now scope.now worst.old) }
{
    match written {
        None => Ok(None),
        Some(base) => base_result(alloc, worst, scope, base),
    }
}
