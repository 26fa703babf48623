//! Calls as statements.
ghost use Rattle.std.specs.Prelude.{◌≡◌, IfOk, OnOk};
ghost use Rattle.mos_sorts.specs.Meanings.{as_meaning};
ghost use Rattle.mos_rules.specs.Results.{in_row};
ghost use Rattle.mos_rules.specs.Rows.{expects};
ghost use Rattle.mos_types.specs.Statements as spec;

use crate::looking::look_all;
use mos_rules::calls::note_number;
use mos_rules::naming::{note_name, of_library};
use mos_rules::{Expected, Side};
use mos_sorts::library::{is_procedure, note_call};
use mos_sorts::meaning::{Meaning, meaning_of};
use mos_sorts::vocabulary::undeclared;
use mos_sorts::worst::{note, note_if};
use mos_sorts::{Bound, Callable, Function, Role, Scope, Signature, Typed, Undeclared};
use mos_text::{Kind, NoMemory, SourceText, let_go};
use mos_tree::Expr;
use sqlite_items::Items;
use std::alloc::Global;

/// What a statement calls, with its arguments.
#[derive(Drop)]
pub enum Called {
    /// Nothing that can be called; a checked source has none.
    Wrong,
    /// A procedure of the source.
    Routine(SourceText, Items<Typed>),
    /// A procedure of the library.
    Library(Function, Items<Typed>),
}

/// A call of a routine: it is no function.
fn routine_called(
    alloc: Global,
    worst: &mut Option<Kind>,
    signature: &Signature,
    name: &SourceText,
    all: Items<Typed>,
) -> Result<Called, NoMemory>
    ensures call { IfOk result (λ x. x
        ≡ (spec.routine_called signature.now name.now (in_row all worst.old)).call) }
    ensures worst { OnOk result
        (worst.new ≡ (spec.routine_called signature.now name.now (in_row all worst.old)).worst) }
{
    note_number(worst, signature.formals.len(), all.as_slice());
    note_if(worst, signature.result.is_some(), Kind::NoType);
    Ok(Called::Routine(name.copy(alloc)?, all))
}

/// A call of the library: it is no function.
fn library_called(
    alloc: Global,
    worst: &mut Option<Kind>,
    callable: Callable,
    all: Items<Typed>,
) -> Result<Called, NoMemory>
    ensures call { IfOk result (λ x. x
        ≡ (spec.library_called callable (in_row all worst.old)).call) }
    ensures worst { OnOk result (worst.new
        ≡ (spec.library_called callable (in_row all worst.old)).worst) }
{
    note_call(alloc, worst, callable.takes, all.as_slice())?;
    note_if(worst, !is_procedure(callable.gives), Kind::NoType);
    Ok(Called::Library(callable.function, all))
}

fn not_called(worst: &mut Option<Kind>, all: Items<Typed>) -> Called
    ensures call { result ≡ (spec.not_called worst.old).call }
    ensures worst { worst.new ≡ (spec.not_called worst.old).worst }
{
    let_go(all);
    note(worst, Kind::NoType);
    Called::Wrong
}

fn role_called(
    alloc: Global,
    worst: &mut Option<Kind>,
    role: &Role,
    name: &SourceText,
    all: Items<Typed>,
) -> Result<Called, NoMemory>
    ensures call { IfOk result (λ x. x
        ≡ (spec.role_called role.now name.now (in_row all worst.old)).call) }
    ensures worst { OnOk result (worst.new
        ≡ (spec.role_called role.now name.now (in_row all worst.old)).worst) }
{
    match role {
        Role::Routine(signature) => routine_called(alloc, worst, signature, name, all),
        _ => Ok(not_called(worst, all)),
    }
}

fn undeclared_called(
    alloc: Global,
    worst: &mut Option<Kind>,
    found: Undeclared,
    all: Items<Typed>,
) -> Result<Called, NoMemory>
    ensures call { IfOk result (λ x. x
        ≡ (spec.undeclared_called found (in_row all worst.old)).call) }
    ensures worst { OnOk result (worst.new
        ≡ (spec.undeclared_called found (in_row all worst.old)).worst) }
{
    match found {
        Undeclared::Function(callable) => library_called(alloc, worst, callable, all),
        _ => Ok(not_called(worst, all)),
    }
}

fn call_of(
    alloc: Global,
    worst: &mut Option<Kind>,
    jobs: bool,
    meaning: Meaning<'_>,
    name: &SourceText,
    all: Items<Typed>,
) -> Result<Called, NoMemory>
    ensures call { IfOk result
        (λ x. x
        ≡ (spec.call_of jobs (as_meaning meaning.entry) name.now (in_row all worst.old)).call) }
    ensures worst { OnOk result
        (worst.new
        ≡ (spec.call_of jobs (as_meaning meaning.entry) name.now
        (in_row all worst.old)).worst) }
{
    match meaning {
        Meaning::Index(_) => Ok(not_called(worst, all)),
        Meaning::Declared(_, role) => role_called(alloc, worst, role, name, all),
        Meaning::Undeclared => {
            undeclared_called(alloc, worst, undeclared(jobs, name.as_bytes()), all)
        }
    }
}

fn arguments_of_undeclared(found: Undeclared, count: usize) -> Expected<'static>
    ensures { expects result ≡ spec.arguments_of_undeclared found count }
{
    match found {
        Undeclared::Function(callable) => of_library(callable.function, count),
        _ => Expected::Plain,
    }
}

/// What is expected of so many arguments of a call.
fn arguments_of<'a>(
    jobs: bool,
    meaning: Meaning<'a>,
    name: &SourceText,
    count: usize,
) -> Expected<'a>
    ensures { expects result ≡ spec.arguments_of jobs (as_meaning meaning.entry) name.now count }
{
    match meaning {
        Meaning::Declared(_, Role::Routine(signature)) => {
            Expected::Formals(signature.formals.as_slice())
        }
        Meaning::Undeclared => arguments_of_undeclared(undeclared(jobs, name.as_bytes()), count),
        _ => Expected::Plain,
    }
}

/// `name(a, b)`, `name()` or `name` as a statement, in a scope, below these index names.
pub fn look_call(
    alloc: Global,
    worst: &mut Option<Kind>,
    scope: &Scope,
    bound: &[Bound],
    name: &SourceText,
    all: &[Expr],
) -> Result<Called, NoMemory>
    ensures call { IfOk result
        (λ x. x ≡ (spec.look_call name.now all.now scope.now bound.now worst.old).call) }
    ensures worst { OnOk result
        (worst.new ≡ (spec.look_call name.now all.now scope.now bound.now worst.old).worst) }
{
    let meaning = meaning_of(scope, bound, name);
    note_name(alloc, worst, Side::Value, true, name, scope.jobs, meaning)?;
    let expected = arguments_of(scope.jobs, meaning, name, all.len());
    let all = look_all(alloc, worst, scope, bound, expected, all)?;
    call_of(alloc, worst, scope.jobs, meaning, name, all)
}
