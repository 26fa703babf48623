//! Operators on sets. What is answered is a set where the left operand is one.
ghost use Rattle.std.specs.Prelude.{◌≡◌, ◌≤◌, Ok, IsOk, OnOk, IfErr, length, take};
ghost use Rattle.mos_value.specs.Collections.{collection_limit};
ghost use Rattle.mos_value.specs.Sets.{has_member, union_of, inter_of, minus_of, set_of, same_members};
ghost use Rattle.mos_value.specs.UpToMemory.{UpToMemory, Becomes, IsCause};

use crate::{Items, ValueFault};
use mos_text::Scalar;
use std::alloc::Global;

/// `union`: the left one's members, and behind them those of the right one that are new.
pub fn union_of(alloc: Global, a: &Items, b: &Items) -> Result<Items, ValueFault>
    ensures { UpToMemory result (union_of a.now b.now) }
{
    let mut union = a.copy(alloc)?;
    add_to_set(alloc, &mut union, b)?;
    Ok(union)
}

/// `inter`: the left one's members that the right one has.
pub fn inter_of(alloc: Global, a: &Items, b: &Items) -> Result<Items, ValueFault>
    ensures { UpToMemory result (inter_of a.now b.now) }
{
    let mut inter = a.copy(alloc)?;
    inter.keep_those_of(b);
    Ok(inter)
}

/// `-` between sets: the left one's members that the right one lacks.
pub fn minus_of(alloc: Global, a: &Items, b: &Items) -> Result<Items, ValueFault>
    ensures { UpToMemory result (minus_of a.now b.now) }
{
    let mut minus = a.copy(alloc)?;
    take_from_set(&mut minus, b)?;
    Ok(minus)
}

/// `+=` on a set: it becomes its union with the other. Where that is refused it stays as it was.
pub fn add_to_set(alloc: Global, to: &mut Items, other: &Items) -> Result<(), ValueFault>
    ensures { Becomes to.old to.new result (union_of to.old other.now) }
{
    let before = to.len();
    let added = add_each(alloc, to, other);
    if added.is_err() {
        to.truncate(before);
    }
    added
}

/// Adds one after the other; where one is refused, those before it are there.
fn add_each(alloc: Global, to: &mut Items, other: &Items) -> Result<(), ValueFault>
    requires { length to.old ≤ collection_limit }
    ensures in_front { take (length to.old) to.new ≡ to.old }
    ensures added { OnOk result (union_of to.old other.now ≡ Ok to.new) }
    ensures refused { IfErr result (λ fault. IsCause fault (union_of to.old other.now)) }
{
    for member in other.as_slice() {
        to.insert(alloc, member)?;
    }
    Ok(())
}

/// `-=` on a set: the members that the other has are taken out, and the others keep their order. It is
/// never refused.
pub fn take_from_set(to: &mut Items, other: &Items) -> Result<(), ValueFault>
    ensures becomes { Becomes to.old to.new result (minus_of to.old other.now) }
    ensures done { IsOk result }
{
    to.drop_those_of(other);
    Ok(())
}

/// Each item once, in the order of their first places.
pub fn set_of(alloc: Global, members: &Items) -> Result<Items, ValueFault>
    ensures { UpToMemory result (set_of members.now) }
{
    let mut set = Items::new(alloc);
    add_to_set(alloc, &mut set, members)?;
    Ok(set)
}

/// `in`: whether the scalar is one of these.
pub fn has_item(items: &Items, x: &Scalar) -> bool
    ensures { result ≡ has_member x.now items.now }
{
    items.has(x)
}

/// `=` between sets: whether they have the same members, in whatever order.
pub fn same_set(a: &Items, b: &Items) -> bool
    ensures { result ≡ same_members a.now b.now }
{
    a.are_all_in(b) && b.are_all_in(a)
}
