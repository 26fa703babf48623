//! Types as they are written, with the index sets of arrays.
ghost use Rattle.std.specs.Prelude.{◌≡◌, ◌++◌, IfOk, OnOk};
ghost use Rattle.mos_declarations.specs.WrittenTypes as spec;

use mos_sorts::trees::{as_set_tree, sort_of};
use mos_sorts::{Scope, Sort, Typed};
use mos_text::{Kind, NoMemory};
use mos_tree::{BaseType, Dimension, Expr, TypeForm};
use mos_types::look;
use mos_value::MemberType;
use mos_written::arrays::is_dynamic;
use mos_written::{array_sort, index_of, plain_sort};
use sqlite_items::Items;
use std::alloc::Global;

/// The indexes of an array: their types, and the sets that are written.
#[derive(Drop)]
struct ArrayIndexes {
    sorts: Items<Option<MemberType>>,
    sets: Items<Typed>,
}

/// What is found of a written type: the type if it has one, and the index sets of an array.
#[derive(Drop)]
pub struct WrittenType {
    pub sort: Option<Sort>,
    pub sets: Items<Typed>,
}

/// Adds an index with a set.
fn index_set(
    alloc: Global,
    worst: &mut Option<Kind>,
    scope: &Scope,
    dimension: &Dimension,
    set: &Expr,
    all: &mut ArrayIndexes,
) -> Result<(), NoMemory>
    ensures sorts { OnOk result
        (all.new.sorts
        ≡ all.old.sorts ++ (spec.set_found dimension.now set.now scope.now worst.old).sorts) }
    ensures sets { OnOk result
        (all.new.sets
        ≡ all.old.sets ++ (spec.set_found dimension.now set.now scope.now worst.old).sets) }
    ensures worst { OnOk result
        (worst.new ≡ (spec.set_found dimension.now set.now scope.now worst.old).worst) }
{
    let tree = look(alloc, worst, scope, scope.bound.as_slice(), set)?;
    let sort = index_of(alloc, worst, scope, dimension, sort_of(&tree))?;
    all.sorts.push(sort)?;
    let tree = as_set_tree(alloc, tree)?;
    all.sets.push(tree)?;
    Ok(())
}

/// Adds an index with a type alone.
fn index_type(
    alloc: Global,
    worst: &mut Option<Kind>,
    scope: &Scope,
    dimension: &Dimension,
    all: &mut ArrayIndexes,
) -> Result<(), NoMemory>
    ensures sorts { OnOk result
        (all.new.sorts ≡ all.old.sorts ++ (spec.of_type dimension.now scope.now worst.old).sorts) }
    ensures sets { OnOk result
        (all.new.sets ≡ all.old.sets ++ (spec.of_type dimension.now scope.now worst.old).sets) }
    ensures worst { OnOk result
        (worst.new ≡ (spec.of_type dimension.now scope.now worst.old).worst) }
{
    let sort = index_of(alloc, worst, scope, dimension, None)?;
    all.sorts.push(sort)?;
    Ok(())
}

/// Adds an index.
fn index(
    alloc: Global,
    worst: &mut Option<Kind>,
    scope: &Scope,
    dimension: &Dimension,
    all: &mut ArrayIndexes,
) -> Result<(), NoMemory>
    ensures sorts { OnOk result
        (all.new.sorts
        ≡ all.old.sorts ++ (spec.index_found dimension.now scope.now worst.old).sorts) }
    ensures sets { OnOk result
        (all.new.sets ≡ all.old.sets ++ (spec.index_found dimension.now scope.now worst.old).sets) }
    ensures worst { OnOk result
        (worst.new ≡ (spec.index_found dimension.now scope.now worst.old).worst) }
{
    match dimension {
        Dimension::IndexSet(set) => index_set(alloc, worst, scope, dimension, set, all),
        _ => index_type(alloc, worst, scope, dimension, all),
    }
}

/// The indexes of an array, in order.
fn indexes(
    alloc: Global,
    worst: &mut Option<Kind>,
    scope: &Scope,
    dimensions: &[Dimension],
) -> Result<ArrayIndexes, NoMemory>
    ensures sorts { IfOk result
        (λ x. x.sorts ≡ (spec.indexes_found dimensions.now scope.now worst.old).sorts) }
    ensures sets { IfOk result
        (λ x. x.sets ≡ (spec.indexes_found dimensions.now scope.now worst.old).sets) }
    ensures worst { OnOk result
        (worst.new ≡ (spec.indexes_found dimensions.now scope.now worst.old).worst) }
{
    let mut all = ArrayIndexes {
        sorts: Items::new(alloc),
        sets: Items::new(alloc),
    };
    for dimension in dimensions {
        index(alloc, worst, scope, dimension, &mut all)?;
    }
    Ok(all)
}

/// An array.
fn array(
    alloc: Global,
    worst: &mut Option<Kind>,
    scope: &mut Scope,
    dynamic: bool,
    dimensions: &[Dimension],
    cell: &BaseType,
) -> Result<WrittenType, NoMemory>
    ensures sort { IfOk result
        (λ x. x.sort
        ≡ (spec.written_array dynamic dimensions.now cell.now scope.old worst.old).sort) }
    ensures sets { IfOk result
        (λ x. x.sets
        ≡ (spec.written_array dynamic dimensions.now cell.now scope.old worst.old).sets) }
    ensures worst { OnOk result
        (worst.new
        ≡ (spec.written_array dynamic dimensions.now cell.now scope.old worst.old).worst) }
    ensures scope { OnOk result
        (scope.new
        ≡ (spec.written_array dynamic dimensions.now cell.now scope.old worst.old).scope) }
{
    let ArrayIndexes { sorts, sets } = indexes(alloc, worst, scope, dimensions)?;
    let sort = array_sort(
        alloc,
        worst,
        scope,
        dynamic,
        dimensions,
        sorts.as_slice(),
        cell,
    )?;
    Ok(WrittenType { sort, sets })
}

/// A type, as it is written.
pub fn written(
    alloc: Global,
    worst: &mut Option<Kind>,
    scope: &mut Scope,
    typ: &TypeForm,
) -> Result<WrittenType, NoMemory>
    ensures sort { IfOk result (λ x. x.sort ≡ (spec.type_found typ.now scope.old worst.old).sort) }
    ensures sets { IfOk result (λ x. x.sets ≡ (spec.type_found typ.now scope.old worst.old).sets) }
    ensures worst { OnOk result (worst.new ≡ (spec.type_found typ.now scope.old worst.old).worst) }
    ensures scope { OnOk result (scope.new ≡ (spec.type_found typ.now scope.old worst.old).scope) }
{
    match typ {
        TypeForm::Array {
            dynamic,
            dimensions,
            cell,
        } => array(alloc, worst, scope, *dynamic, dimensions.as_slice(), cell),
        _ => {
            let sort = plain_sort(alloc, worst, scope, typ)?;
            let sets = Items::new(alloc);
            Ok(WrittenType { sort, sets })
        }
    }
}

/// Whether it is the type of a dense array.
pub fn is_dense(typ: &TypeForm) -> bool
    ensures { result ≡ spec.is_dense typ.now }
{
    match typ {
        TypeForm::Array {
            dynamic,
            dimensions,
            ..
        } => !is_dynamic(*dynamic, dimensions.as_slice()),
        _ => false,
    }
}
