//! Lists of indexes.
ghost use Rattle.std.specs.Prelude.{◌≡◌, IfOk};
ghost use Rattle.mos_array.specs.Contents as spec;

use mos_text::{NoMemory, Scalar};
use mos_value::same_one;
use sqlite_items::Items;
use std::alloc::Global;

/// Whether two index lists are one.
pub(crate) fn same_indexes(a: &[Scalar], b: &[Scalar]) -> bool
    ensures { result ≡ spec.same_indexes a.now b.now }
{
    let mut rest = b;
    for index in a {
        let Some((other, others)) = rest.split_first() else {
            return false;
        };
        if !same_one(index, other) {
            return false;
        }
        rest = others;
    }
    rest.is_empty()
}

/// A copy of each.
pub(crate) fn copies(alloc: Global, scalars: &[Scalar]) -> Result<Items<Scalar>, NoMemory>
    ensures { IfOk result (λ copied. copied ≡ scalars.now) }
{
    let mut copied = Items::new(alloc);
    for scalar in scalars {
        copied.push(scalar.copy(alloc)?)?;
    }
    Ok(copied)
}

/// The place of the first list that is this one.
pub(crate) fn place_among(at: &[Scalar], lists: &[Items<Scalar>]) -> Option<usize>
    ensures { result ≡ spec.place_among at.now lists.now }
{
    lists
        .iter()
        .position(|list| same_indexes(at, list.as_slice()))
}
