//! Array types as they are written: their indexes one by one, and then the whole.
ghost use Rattle.std.specs.Prelude.{◌≡◌, IfOk, OnOk, MatchOption, None};
ghost use Rattle.std.specs.List.{list_any};
ghost use Rattle.mos_sorts.specs.Kinds.{least};
ghost use Rattle.mos_written.specs.Dimensions as spec;

use crate::base::{base_member, base_sort};
use crate::table::array_numbered;
use mos_sorts::fits::index_over;
use mos_sorts::worst::note_if;
use mos_sorts::{ArraySort, Scope, Sort};
use mos_text::{Kind, NoMemory};
use mos_tree::{BaseType, Dimension};
use mos_value::MemberType;
use sqlite_items::Items;
use std::alloc::Global;

/// The most indexes of an array.
const INDEX_LIMIT: usize = 8;

/// The type of an index over a set of this type. Notes `TYPE` of what is no set or range, or whose members have no
/// type.
fn index_of_set(worst: &mut Option<Kind>, looked: Option<Sort>) -> Option<MemberType>
    ensures index { result ≡ spec.index_of_set looked }
    ensures worst { worst.new ≡ least worst.old (spec.wrong_index_set looked) }
{
    let index = index_over(looked?);
    note_if(worst, index.is_none(), Kind::NoType);
    index
}

/// The type of an index, by what is written for it and, where that is an index set, by the type that was found for
/// this. Notes the rules of a base, `FLAT` of one that is no type of an index, and `TYPE` of what is no set or range.
pub fn index_of(
    alloc: Global,
    worst: &mut Option<Kind>,
    scope: &Scope,
    dimension: &Dimension,
    looked: Option<Sort>,
) -> Result<Option<MemberType>, NoMemory>
    ensures index { IfOk result (λ found. found ≡ spec.index_of dimension.now looked scope.now) }
    ensures worst { OnOk result (worst.new
        ≡ spec.after_index dimension.now looked scope.now worst.old) }
{
    match dimension {
        Dimension::Range => Ok(Some(MemberType::Integer)),
        Dimension::Set(base) => base_member(alloc, worst, scope, base),
        Dimension::IndexSet(_) => Ok(index_of_set(worst, looked)),
    }
}

fn is_bare(dimension: &Dimension) -> bool
    ensures { result ≡ spec.is_bare dimension.now }
{
    match dimension {
        Dimension::IndexSet(_) => false,
        _ => true,
    }
}

fn has_bare(dimensions: &[Dimension]) -> bool
    ensures { result ≡ list_any spec.is_bare dimensions.now }
{
    dimensions.iter().any(|dimension| is_bare(dimension))
}

/// Whether an array with these indexes is dynamic: that word says so, or a bare type stands for one of them.
pub fn is_dynamic(dynamic: bool, dimensions: &[Dimension]) -> bool
    ensures { result ≡ spec.is_dynamic dynamic dimensions.now }
{
    dynamic || has_bare(dimensions)
}

/// The types of all indexes, where each has one.
fn all_indexes(
    alloc: Global,
    indexes: &[Option<MemberType>],
) -> Result<Option<Items<MemberType>>, NoMemory>
    ensures { IfOk result (λ found. found ≡ spec.all_indexes indexes.now) }
{
    let mut all = Items::new(alloc);
    for index in indexes {
        match index {
            Some(index) => all.push(*index)?,
            None => return Ok(None),
        }
    }
    Ok(Some(all))
}

/// The array type of these parts, where they have types; the scope knows it from now on.
fn numbered(
    scope: &mut Scope,
    dynamic: bool,
    indexes: Option<Items<MemberType>>,
    cell: Option<Sort>,
) -> Result<Option<Sort>, NoMemory>
    ensures { IfOk result
        (λ found. (found, scope.new)
        ≡ spec.numbered (spec.array_parts dynamic indexes cell) scope.old) }
{
    match (indexes, cell) {
        (Some(indexes), Some(cell)) => {
            let parts = ArraySort {
                dynamic,
                indexes,
                cell,
            };
            Ok(Some(array_numbered(scope, parts)?))
        }
        _ => Ok(None),
    }
}

/// The array type that is written so, once the types of its indexes are known, one for each; the scope knows it from
/// now on. Notes `FLAT` of more than 8 indexes, and the rules of the cell.
pub fn array_sort(
    alloc: Global,
    worst: &mut Option<Kind>,
    scope: &mut Scope,
    dynamic: bool,
    dimensions: &[Dimension],
    indexes: &[Option<MemberType>],
    cell: &BaseType,
) -> Result<Option<Sort>, NoMemory>
    ensures sort { IfOk result (λ found. (found, scope.new)
        ≡ spec.array_written dynamic dimensions.now indexes.now cell.now scope.old) }
    ensures worst { OnOk result (worst.new
        ≡ spec.after_array dimensions.now cell.now scope.old worst.old) }
{
    note_if(worst, dimensions.len() > INDEX_LIMIT, Kind::Flat);
    let cell = base_sort(alloc, worst, scope, cell)?;
    let indexes = all_indexes(alloc, indexes)?;
    numbered(scope, is_dynamic(dynamic, dimensions), indexes, cell)
}
