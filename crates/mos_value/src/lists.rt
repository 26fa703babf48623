//! Operators on lists.
ghost use Rattle.std.specs.Prelude.{◌≡◌, ◌↔◌, IsTrue};
ghost use Rattle.mos_value.specs.Lists.{chain_of};
ghost use Rattle.mos_value.specs.UpToMemory.{UpToMemory, Becomes};

use crate::{Items, ValueFault, same_one};
use std::alloc::Global;

/// `+` between lists: the one's items, and behind them the other's.
pub fn chain_of(alloc: Global, a: &Items, b: &Items) -> Result<Items, ValueFault>
    ensures { UpToMemory result (chain_of a.now b.now) }
{
    let mut chain = a.copy(alloc)?;
    add_to_list(alloc, &mut chain, b)?;
    Ok(chain)
}

/// `+=` on a list: the other's items go behind its own. Where that is refused it stays as it was.
pub fn add_to_list(alloc: Global, to: &mut Items, other: &Items) -> Result<(), ValueFault>
    ensures { Becomes to.old to.new result (chain_of to.old other.now) }
{
    to.append(other.copy(alloc)?)
}

/// `=` between lists: whether they have the same items in the same order.
pub fn same_list(a: &Items, b: &Items) -> bool
    ensures { IsTrue result ↔ (a.now ≡ b.now) }
{
    let (a, b) = (a.as_slice(), b.as_slice());
    if a.len() != b.len() {
        return false;
    }
    for place in 0..a.len() {
        if !same_one(&a[place], &b[place]) {
            return false;
        }
    }
    true
}
