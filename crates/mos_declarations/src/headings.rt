//! Headings of routines, and those that `forward` announces.
ghost use Rattle.std.specs.Prelude.{◌≡◌, ◌++◌, Ok, Err, None, true, false, IfOk, OnOk, option_copied};
ghost use Rattle.mos_declarations.specs.Taken.{taken};
ghost use Rattle.mos_types.specs.Faults.{IfAt};
ghost use Rattle.mos_declarations.specs.Headings as spec;
ghost use Rattle.mos_sorts.specs.Scopes.{twice_if};

use crate::formals::{formals, result_sort};
use mos_sorts::fits::same_sort;
use mos_sorts::names::{is_among, note_clash};
use mos_sorts::worst::{note_if, note_later};
use mos_sorts::{Entries, Entry, Role, Scope, Signature, Sort};
use mos_text::{Kind, NoMemory, SourceText};
use mos_tree::Heading;
use mos_types::{TypeFault, judge};
use sqlite_items::Items;
use std::alloc::Global;

/// Whether a formal has this type.
#[tactic(auto, unfolding(crate::specs::Headings::is_of))]
fn is_of(found: Option<Sort>, sort: Sort) -> bool
    ensures { result ≡ spec.is_of found sort }
{
    match found {
        Some(found) => same_sort(found, sort),
        None => false,
    }
}

/// Whether the types of formals are these.
fn same_formals(found: &[Option<Sort>], announced: &[Sort]) -> bool
    ensures { result ≡ spec.same_formals found.now announced.now }
{
    let mut rest = announced;
    for formal in found {
        let Some((sort, others)) = rest.split_first() else {
            return false;
        };
        if !is_of(*formal, *sort) {
            return false;
        }
        rest = others;
    }
    rest.is_empty()
}

/// Whether the results are one.
fn same_result(function: bool, found: Option<Sort>, announced: Option<Sort>) -> bool
    ensures { result ≡ spec.same_result function found announced }
{
    match (function, found, announced) {
        (false, _, None) => true,
        (true, Some(a), Some(b)) => same_sort(a, b),
        _ => false,
    }
}

/// Whether the role is that of a routine with this heading that only its `forward` has announced.
fn announced_as(
    sorts: &[Option<Sort>],
    function: bool,
    result_sort: Option<Sort>,
    role: &Role,
) -> bool
    ensures { result ≡ spec.announced_as sorts.now function result_sort role.now }
{
    match role {
        Role::Routine(signature) => {
            signature.forward
                && same_formals(sorts, signature.formals.as_slice())
                && same_result(function, result_sort, signature.result)
        }
        _ => false,
    }
}

/// Whether a name of the model clashes with that of a routine with this heading.
fn clashes(
    sorts: &[Option<Sort>],
    function: bool,
    result_sort: Option<Sort>,
    found: Option<&Entry>,
) -> bool
    ensures { result ≡ spec.clashes sorts.now function result_sort (option_copied found.entry) }
{
    match found {
        None => false,
        Some(entry) => !announced_as(sorts, function, result_sort, &entry.role),
    }
}

/// What counts of a name that clashes where this holds.
fn twice_if(alloc: Global, name: &SourceText, clashes: bool) -> Result<Option<Kind>, NoMemory>
    ensures { IfOk result (λ worst. worst ≡ twice_if clashes name.now None) }
{
    let mut worst = None;
    note_clash(alloc, &mut worst, clashes, name)?;
    Ok(worst)
}

/// The types that are there.
fn known_sorts(alloc: Global, sorts: &[Option<Sort>]) -> Result<Items<Sort>, NoMemory>
    ensures { IfOk result (λ known. known ≡ spec.known_sorts sorts.now) }
{
    let mut known = Items::new(alloc);
    for sort in sorts {
        if let Some(sort) = sort {
            known.push(*sort)?;
        }
    }
    Ok(known)
}

/// Adds a routine to the names of the model.
fn add_routine(
    alloc: Global,
    scope: &mut Scope,
    name: &SourceText,
    forward: bool,
    sorts: &[Option<Sort>],
    result_sort: Option<Sort>,
) -> Result<(), NoMemory>
    ensures { OnOk result
        (scope.new
        ≡ spec.with_routine name.now (spec.signature forward sorts.now result_sort) scope.old) }
{
    let name = name.copy(alloc)?;
    let formals = known_sorts(alloc, sorts)?;
    let role = Role::Routine(Signature {
        formals,
        result: result_sort,
        forward,
    });
    scope.model.push(alloc, Entry { name, role })?;
    Ok(())
}

/// Enters the scope of a heading's formals.
fn enter(alloc: Global, scope: &mut Scope)
    ensures { scope.new ≡ spec.entered scope.old }
{
    scope.own = Entries::new(alloc);
    scope.bound = Items::new(alloc);
    scope.inside = true;
}

/// Leaves a routine: its names are seen no more.
pub fn leave_routine(alloc: Global, scope: &mut Scope)
    ensures { scope.new ≡ spec.left scope.old }
{
    scope.own = Entries::new(alloc);
    scope.bound = Items::new(alloc);
    scope.inside = false;
    scope.in_loop = false;
    scope.result = None;
}

/// What counts of the name of `forward`: it is new, and its routine comes.
fn wrong_forward(alloc: Global, scope: &Scope, name: &SourceText) -> Result<Option<Kind>, NoMemory>
    ensures { IfOk result (λ worst. worst ≡ spec.wrong_forward name.now scope.now) }
{
    let is_there = scope.model.latest(name).is_some();
    let mut worst = twice_if(alloc, name, is_there)?;
    note_if(
        &mut worst,
        !is_among(scope.routines.as_slice(), name),
        Kind::Forward,
    );
    Ok(worst)
}

/// `forward` and a heading.
pub fn announce(alloc: Global, scope: &mut Scope, x: &Heading) -> Result<(), TypeFault>
    ensures ok { OnOk result
        (taken x.now.line (spec.forward_piece x.now scope.old) ≡ Ok scope.new) }
    ensures fault { IfAt result
        (λ f. taken x.now.line (spec.forward_piece x.now scope.old) ≡ Err f) }
{
    enter(alloc, scope);
    let mut later = None;
    let sorts = formals(alloc, &mut later, scope, x.formals.as_slice())?;
    let sort = result_sort(alloc, &mut later, scope, &x.result)?;
    let mut worst = wrong_forward(alloc, scope, &x.name)?;
    note_later(&mut worst, later);
    judge(x.line, worst)?;
    add_routine(alloc, scope, &x.name, true, sorts.as_slice(), sort)?;
    leave_routine(alloc, scope);
    Ok(())
}

/// What counts of the name of a routine.
fn wrong_routine(
    alloc: Global,
    scope: &Scope,
    x: &Heading,
    sorts: &[Option<Sort>],
    result_sort: Option<Sort>,
) -> Result<Option<Kind>, NoMemory>
    ensures { IfOk result
        (λ worst. worst ≡ spec.wrong_routine x.now sorts.now result_sort scope.now) }
{
    let found = scope.model.latest(&x.name);
    let clashes = clashes(sorts, x.result.is_some(), result_sort, found);
    twice_if(alloc, &x.name, clashes)
}

/// The heading of a routine; what follows stands in the routine, with its formals as names.
pub fn begin_routine(alloc: Global, scope: &mut Scope, x: &Heading) -> Result<(), TypeFault>
    ensures ok { OnOk result
        (taken x.now.line (spec.routine_piece x.now scope.old) ≡ Ok scope.new) }
    ensures fault { IfAt result
        (λ f. taken x.now.line (spec.routine_piece x.now scope.old) ≡ Err f) }
{
    enter(alloc, scope);
    let mut later = None;
    let sorts = formals(alloc, &mut later, scope, x.formals.as_slice())?;
    let sort = result_sort(alloc, &mut later, scope, &x.result)?;
    let mut worst = wrong_routine(alloc, scope, x, sorts.as_slice(), sort)?;
    note_later(&mut worst, later);
    judge(x.line, worst)?;
    add_routine(alloc, scope, &x.name, false, sorts.as_slice(), sort)?;
    scope.bound = Items::new(alloc);
    scope.inside = true;
    scope.in_loop = false;
    scope.result = sort;
    Ok(())
}
