//! The size count of a source.
ghost use Rattle.std.specs.Prelude.{◌≡◌, ◌*◌, map, sum};
ghost use Rattle.mos_sizes.specs.SizeCounts as spec;
ghost use Rattle.mos_sizes.specs.SizeCounts.{capped};

use crate::declarations::{formal_types, formals, items, parameters};
use crate::expressions::each;
use crate::statements::statement;
use mos_checked::{CheckedRoutine, Variable};
use mos_tree::{RoutinePart, Top};

fn part(x: &RoutinePart) -> u64
    ensures { result ≡ capped (spec.part_size x.now) }
{
    match x {
        RoutinePart::Declarations(declared) => items(declared.items.as_slice()),
        RoutinePart::Statement(x) => statement(x),
    }
}

/// The parts of a routine.
fn parts(all: &[RoutinePart]) -> u64
    ensures { result ≡ capped (sum (map spec.part_size all.now)) }
{
    let mut size = 0_u64;
    for x in all {
        size = size.saturating_add(part(x));
    }
    size
}

fn top(x: &Top) -> u64
    ensures { result ≡ capped (spec.top_size x.now) }
{
    match x {
        Top::Parameters {
            parameters: all,
            ..
        } => parameters(all.as_slice()),
        Top::Declarations(declared) => items(declared.items.as_slice()),
        Top::Routine(x) => {
            let formals = formals(x.heading.formals.as_slice());
            formals
                .saturating_add(parts(x.parts.as_slice()))
                .saturating_add(24)
        }
        Top::Forward(x) => formal_types(x.formals.as_slice()),
        Top::Statement(x) => statement(x),
    }
}

/// The parts of a model.
fn tops(all: &[Top]) -> u64
    ensures { result ≡ capped (sum (map spec.top_size all.now)) }
{
    let mut size = 0_u64;
    for x in all {
        size = size.saturating_add(top(x));
    }
    size
}

/// The variables of routines.
fn routine_variables(all: &[CheckedRoutine]) -> u64
    ensures { result ≡ capped (24 * spec.routine_variables all.now) }
{
    let mut size = 0_u64;
    for x in all {
        size = size.saturating_add(each(24, x.variables.len()));
    }
    size
}

/// The size count of a source with these parts, routines and variables of the model.
pub fn size_count(all: &[Top], routines: &[CheckedRoutine], variables: &[Variable]) -> u64
    ensures { result ≡ capped (spec.size_count all.now routines.now variables.now) }
{
    let model = 24_u64.saturating_add(tops(all));
    let variables = each(24, variables.len());
    model
        .saturating_add(routine_variables(routines))
        .saturating_add(variables)
}
