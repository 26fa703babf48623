//! Expressions that stand in statements.
ghost use Rattle.std.specs.Prelude.{◌≡◌, None, IfOk, OnOk, option_copied};
ghost use Rattle.mos_rules.specs.Results.{with_tree};
ghost use Rattle.mos_rules.specs.Rows.{expects};
ghost use Rattle.mos_types.specs.Statements as spec;

use crate::looking::{look, look_all, named};
use mos_rules::calls::array_of;
use mos_rules::indexes::note_condition;
use mos_rules::{Expected, Side};
use mos_sorts::fits::may_fit;
use mos_sorts::library::note_prefix;
use mos_sorts::trees::{given, sort_of};
use mos_sorts::worst::note_if;
use mos_sorts::{ArraySort, Bound, Scope, Sort, Typed};
use mos_text::{Kind, NoMemory, SourceText};
use mos_tree::Expr;
use sqlite_items::Items;
use std::alloc::Global;

/// The typed tree of an expression where this type is wanted.
pub fn look_as(
    alloc: Global,
    worst: &mut Option<Kind>,
    scope: &Scope,
    bound: &[Bound],
    wanted: Sort,
    expr: &Expr,
) -> Result<Typed, NoMemory>
    ensures tree { IfOk result
        (λ x. x ≡ (spec.look_as wanted expr.now scope.now bound.now worst.old).tree) }
    ensures worst { OnOk result
        (worst.new ≡ (spec.look_as wanted expr.now scope.now bound.now worst.old).worst) }
{
    let tree = look(alloc, worst, scope, bound, expr)?;
    note_if(worst, !may_fit(wanted, sort_of(&tree)), Kind::NoType);
    given(alloc, wanted, tree)
}

/// The typed tree of a condition.
pub fn look_condition(
    alloc: Global,
    worst: &mut Option<Kind>,
    scope: &Scope,
    bound: &[Bound],
    expr: &Expr,
) -> Result<Typed, NoMemory>
    ensures tree { IfOk result
        (λ x. x ≡ (spec.look_condition expr.now scope.now bound.now worst.old).tree) }
    ensures worst { OnOk result
        (worst.new ≡ (spec.look_condition expr.now scope.now bound.now worst.old).worst) }
{
    let tree = look(alloc, worst, scope, bound, expr)?;
    note_condition(worst, &tree);
    Ok(tree)
}

/// The typed trees of the labels of an alternative, where `case` is on a value of this type.
pub fn look_labels(
    alloc: Global,
    worst: &mut Option<Kind>,
    scope: &Scope,
    bound: &[Bound],
    value: Sort,
    labels: &[Expr],
) -> Result<Items<Typed>, NoMemory>
    ensures trees { IfOk result
        (λ x. x ≡ (spec.look_labels value labels.now scope.now bound.now worst.old).trees) }
    ensures worst { OnOk result
        (worst.new ≡ (spec.look_labels value labels.now scope.now bound.now worst.old).worst) }
{
    look_all(alloc, worst, scope, bound, Expected::Labels(value), labels)
}

/// The typed tree of the name of a block of data.
pub fn look_block(
    alloc: Global,
    worst: &mut Option<Kind>,
    scope: &Scope,
    bound: &[Bound],
    expr: &Expr,
) -> Result<Typed, NoMemory>
    ensures tree { IfOk result
        (λ x. x ≡ (spec.look_block expr.now scope.now bound.now worst.old).tree) }
    ensures worst { OnOk result
        (worst.new ≡ (spec.look_block expr.now scope.now bound.now worst.old).worst) }
{
    let tree = look(alloc, worst, scope, bound, expr)?;
    note_block(alloc, worst, &tree)?;
    Ok(tree)
}

/// Notes what is wrong with the name of a block of data.
fn note_block(alloc: Global, worst: &mut Option<Kind>, tree: &Typed) -> Result<(), NoMemory>
    ensures { OnOk result (worst.new ≡ (spec.block_name (with_tree tree.now worst.old)).worst) }
{
    note_prefix(alloc, worst, true, tree)?;
    note_if(worst, !may_fit(Sort::Text, sort_of(tree)), Kind::NoType);
    Ok(())
}

/// `name :: [a, b]`, with types.
#[derive(Drop)]
pub struct Filled {
    pub target: Typed,
    pub values: Items<Typed>,
}

fn dense_cell(array: Option<&ArraySort>) -> Option<Sort>
    ensures { result ≡ spec.dense_cell (option_copied array.entry) }
{
    match array {
        Some(array) if !array.dynamic => Some(array.cell),
        _ => None,
    }
}

/// The type of the cells of what has this type, where it is a dense array.
fn filled_cell(arrays: &[ArraySort], sort: Option<Sort>) -> Option<Sort>
    ensures { result ≡ spec.filled_cell arrays.now sort }
{
    match sort {
        Some(sort) => dense_cell(array_of(arrays, sort)),
        None => None,
    }
}

fn of_cells(cell: Option<Sort>) -> Expected<'static>
    ensures { expects result ≡ spec.of_cells cell }
{
    match cell {
        Some(cell) => Expected::Cells(cell),
        None => Expected::Plain,
    }
}

/// `name :: [a, b]` in a scope, below these index names.
pub fn look_fill(
    alloc: Global,
    worst: &mut Option<Kind>,
    scope: &Scope,
    bound: &[Bound],
    name: &SourceText,
    values: &[Expr],
) -> Result<Filled, NoMemory>
    ensures target { IfOk result
        (λ x. x.target
        ≡ (spec.look_fill name.now values.now scope.now bound.now worst.old).target) }
    ensures values { IfOk result
        (λ x. x.values
        ≡ (spec.look_fill name.now values.now scope.now bound.now worst.old).values) }
    ensures worst { OnOk result
        (worst.new ≡ (spec.look_fill name.now values.now scope.now bound.now worst.old).worst) }
{
    let target = named(alloc, worst, scope, bound, Side::Filled, name, None)?;
    let cell = filled_cell(scope.arrays.as_slice(), sort_of(&target));
    note_if(worst, cell.is_none(), Kind::NoType);
    let values = look_all(alloc, worst, scope, bound, of_cells(cell), values)?;
    Ok(Filled { target, values })
}
