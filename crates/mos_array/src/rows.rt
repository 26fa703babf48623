//! Index lists of a dense array, in row order.
ghost use Rattle.std.specs.Prelude.{◌≡◌, ◌≤◌, ◌++◌, ◌∷◌, [], IfOk, OnOk, IsFalse, length};
ghost use Rattle.std.specs.List.{list_any};
ghost use Rattle.mos_array.specs.Rows as spec;
ghost use Rattle.mos_value.specs.Collections.{collection_limit};
ghost use Rattle.mos_value.specs.UpToMemory.{UpToMemory};

use crate::indexes::copies;
use mos_text::{FaultKind, NoMemory, Scalar};
use mos_value::{COLLECTION_LIMIT, Items as Members, ValueFault};
use sqlite_items::Items;
use std::alloc::Global;

/// The list with one more index behind it.
fn longer(alloc: Global, at: &[Scalar], index: &Scalar) -> Result<Items<Scalar>, NoMemory>
    ensures { IfOk result (λ list. list ≡ at.now ++ index.now ∷ []) }
{
    let mut list = copies(alloc, at)?;
    list.push(index.copy(alloc)?)?;
    Ok(list)
}

/// Puts the list with each of the members behind it behind the others.
fn push_each(
    alloc: Global,
    all: &mut Items<Items<Scalar>>,
    at: &[Scalar],
    members: &[Scalar],
) -> Result<(), NoMemory>
    ensures { OnOk result (all.new ≡ all.old ++ spec.with_each at.now members.now) }
{
    for member in members {
        all.push(longer(alloc, at, member)?)?;
    }
    Ok(())
}

/// Each of the lists with each of the members behind it.
fn with_index(
    alloc: Global,
    lists: &[Items<Scalar>],
    members: &[Scalar],
) -> Result<Items<Items<Scalar>>, NoMemory>
    ensures { IfOk result (λ all. all ≡ spec.with_index lists.now members.now) }
{
    let mut all = Items::new(alloc);
    for list in lists {
        push_each(alloc, &mut all, list.as_slice(), members)?;
    }
    Ok(all)
}

/// How many that are.
#[tactic(auto, using(crate::proofs::RowLemmas::with_index_length))]
fn count_with(lists: &[Items<Scalar>], members: &Members) -> usize
    requires { length lists.now ≤ collection_limit }
    ensures { result ≡ length (spec.with_index lists.now members.now) }
{
    lists.len() * members.len()
}

/// Each of the lists with each of the members behind it, unless there are too many of them.
#[tactic(auto, using(crate::proofs::RowLemmas::lists_few, crate::proofs::RowLemmas::lists_many))]
fn with_few(
    alloc: Global,
    lists: Items<Items<Scalar>>,
    members: &Members,
) -> Result<Items<Items<Scalar>>, ValueFault>
    requires { length lists ≤ collection_limit }
    ensures few { UpToMemory result (spec.few_lists (spec.with_index lists members.now)) }
    ensures limited { IfOk result (λ all. length all ≤ collection_limit) }
{
    if count_with(lists.as_slice(), members) > COLLECTION_LIMIT {
        return Err(ValueFault::Fault(FaultKind::TooBig));
    }
    Ok(with_index(alloc, lists.as_slice(), members.as_slice())?)
}

/// Whether one of the sets has no member, so that no index list has one of it.
fn some_is_empty(sets: &[Members]) -> bool
    ensures { result ≡ list_any spec.is_empty sets.now }
{
    sets.iter().any(|set| set.len() == 0)
}

/// The index lists over sets of which each has a member.
fn over_full_sets(alloc: Global, sets: &[Members]) -> Result<Items<Items<Scalar>>, ValueFault>
    requires { IsFalse (list_any spec.is_empty sets.now) }
    ensures { UpToMemory result (spec.lists_of sets.now) }
{
    let mut lists = Items::new(alloc);
    lists.push(Items::new(alloc))?;
    for set in sets {
        match with_few(alloc, lists, set) {
            Ok(longer) => lists = longer,
            Err(fault) => return Err(fault),
        }
    }
    Ok(lists)
}

/// The index lists over these sets, in row order, or TOOBIG above 1,000,000.
#[tactic(auto, using(crate::proofs::RowLemmas::fold_empty))]
pub(crate) fn lists_of(alloc: Global, sets: &[Members]) -> Result<Items<Items<Scalar>>, ValueFault>
    ensures { UpToMemory result (spec.lists_of sets.now) }
{
    if some_is_empty(sets) {
        Ok(Items::new(alloc))
    } else {
        over_full_sets(alloc, sets)
    }
}
