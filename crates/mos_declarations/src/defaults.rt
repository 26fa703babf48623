//! Parameters and their defaults.
ghost use Rattle.std.specs.Prelude.{◌≡◌, ◌++◌, Ok, Err, IfOk, OnOk};
ghost use Rattle.mos_declarations.specs.Taken.{taken};
ghost use Rattle.mos_types.specs.Faults.{IfAt};
ghost use Rattle.mos_declarations.specs.Parameters as spec;
ghost use Rattle.mos_sorts.specs.Kinds.{least};

use crate::declaring::{constant_found, twice_here};
use mos_checked::Parameter;
use mos_sorts::meaning::declare;
use mos_sorts::worst::note_if;
use mos_sorts::{Role, Scope, Sort, Value};
use mos_text::{Kind, NoMemory, SourceText};
use mos_types::{TypeFault, judge};
use sqlite_items::Items;
use std::alloc::Global;

/// A parameter is an integer, a boolean or a string.
fn note_parameter(worst: &mut Option<Kind>, sort: Option<Sort>)
    ensures { worst.new ≡ least worst.old (spec.wrong_parameter sort) }
{
    let fits = match sort {
        None | Some(Sort::Integer | Sort::Boolean | Sort::Text) => true,
        Some(_) => false,
    };
    note_if(worst, !fits, Kind::NoType);
}

fn declare_parameter(
    alloc: Global,
    scope: &mut Scope,
    name: &SourceText,
    sort: Option<Sort>,
) -> Result<(), NoMemory>
    ensures { OnOk result (scope.new ≡ spec.with_parameter name.now sort scope.old) }
{
    match sort {
        Some(sort) => declare(alloc, scope, name, Role::Parameter(sort)),
        None => Ok(()),
    }
}

/// Adds a parameter that has a type and a value.
fn add_parameter(
    alloc: Global,
    all: &mut Items<Parameter>,
    name: &SourceText,
    sort: Option<Sort>,
    value: Option<Value>,
) -> Result<(), NoMemory>
    ensures { OnOk result (all.new ≡ all.old ++ spec.parameter_with name.now sort value) }
{
    match (sort, value) {
        (Some(sort), Some(default)) => {
            let name = name.copy(alloc)?;
            all.push(Parameter {
                name,
                sort,
                default,
            })?;
            Ok(())
        }
        _ => Ok(()),
    }
}

/// `NAME = E` of a block of parameters; the parameter is added to these.
fn parameter_piece(
    alloc: Global,
    scope: &mut Scope,
    all: &mut Items<Parameter>,
    x: &mos_tree::Parameter,
) -> Result<(), TypeFault>
    ensures ok { OnOk result
        (spec.adding all.old (taken x.now.line (spec.parameter_piece x.now scope.old))
        ≡ Ok (all.new, scope.new)) }
    ensures fault { IfAt result
        (λ f. taken x.now.line (spec.parameter_piece x.now scope.old) ≡ Err f) }
{
    let mut worst = twice_here(alloc, scope, &x.name)?;
    let found = constant_found(alloc, &mut worst, scope, &x.default)?;
    note_parameter(&mut worst, found.sort);
    judge(x.line, worst)?;
    declare_parameter(alloc, scope, &x.name, found.sort)?;
    add_parameter(alloc, all, &x.name, found.sort, found.value)?;
    Ok(())
}

/// The parameters of a block; they are added to these.
pub fn parameters(
    alloc: Global,
    scope: &mut Scope,
    all: &mut Items<Parameter>,
    written: &[mos_tree::Parameter],
) -> Result<(), TypeFault>
    ensures ok { OnOk result
        (spec.adding all.old (spec.parameters_found written.now scope.old)
        ≡ Ok (all.new, scope.new)) }
    ensures fault { IfAt result (λ f. spec.parameters_found written.now scope.old ≡ Err f) }
{
    for x in written {
        parameter_piece(alloc, scope, all, x)?;
    }
    Ok(())
}
