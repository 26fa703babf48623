//! Functions on sets, lists and ranges.
ghost use Rattle.std.specs.Prelude.{◌≡◌, ◌≤◌, ◌<◌, pos, ◌++◌, ◌∷◌, [], IfOk, OnOk, IfSome, length, reverse, position, min};
ghost use Rattle.std.specs.Option.{option_copied};
ghost use Rattle.mos_value.specs.Collections.{collection_limit};
ghost use Rattle.mos_value.specs.Same.{is_same};
ghost use Rattle.mos_value.specs.UpToMemory.{UpToMemory};
ghost use Rattle.mos_value.specs.Values.{at_least_zero};
ghost use Rattle.vm_lib.specs.Sequences as spec;

use mos_text::{FaultKind, NoMemory, Scalar};
use mos_value::{Items, ValueFault, same_one};
use sqlite_items::at;
use std::alloc::Global;

/// `getsize` of a set or list, from 0 to 1,000,000.
pub fn size_of(items: &Items) -> i32
    ensures { result ≡ spec.size_of items.now }
{
    items.len() as i32
}

/// `getfirst` of a list: a copy of its first item, or EMPTY.
pub fn first_of(alloc: Global, items: &Items) -> Result<Scalar, ValueFault>
    ensures { UpToMemory result (spec.first_of items.now) }
{
    copy_of(alloc, at(items.as_slice(), 0))
}

/// `getlast` of a list: a copy of its last item, or EMPTY.
pub fn last_of(alloc: Global, items: &Items) -> Result<Scalar, ValueFault>
    ensures { UpToMemory result (spec.last_of items.now) }
{
    copy_of(alloc, at(items.as_slice(), items.len().saturating_sub(1)))
}

/// A copy of the item that is there, or EMPTY.
fn copy_of(alloc: Global, item: Option<&Scalar>) -> Result<Scalar, ValueFault>
    ensures { UpToMemory result (spec.or_empty (option_copied item.entry)) }
{
    match item {
        Some(item) => Ok(item.copy(alloc)?),
        None => Err(ValueFault::Fault(FaultKind::Empty)),
    }
}

/// `getfirst` of a range: its first integer, or EMPTY.
pub fn first_of_range(first: i32, last: i32) -> Result<i32, FaultKind>
    ensures { result ≡ spec.first_of_range first last }
{
    if last < first {
        Err(FaultKind::Empty)
    } else {
        Ok(first)
    }
}

/// `getlast` of a range: its last integer, or EMPTY.
pub fn last_of_range(first: i32, last: i32) -> Result<i32, FaultKind>
    ensures { result ≡ spec.last_of_range first last }
{
    if last < first {
        Err(FaultKind::Empty)
    } else {
        Ok(last)
    }
}

/// `gethead`: the first so many items; none for a number below 0, and all for one above their number.
pub fn head_of(alloc: Global, items: &Items, many: i32) -> Result<Items, NoMemory>
    ensures { IfOk result (λ head. head ≡ spec.head_of items.now many) }
{
    let many = at_most(many, items.len());
    items_of(alloc, &items.as_slice()[..many])
}

/// `gettail`: the last so many items; none for a number below 0, and all for one above their number.
pub fn tail_of(alloc: Global, items: &Items, many: i32) -> Result<Items, NoMemory>
    ensures { IfOk result (λ tail. tail ≡ spec.tail_of items.now many) }
{
    let left = items.len() - at_most(many, items.len());
    items_of(alloc, &items.as_slice()[left..])
}

/// So many, from none to this number of them.
fn at_most(many: i32, limit: usize) -> usize
    ensures { result ≡ min (at_least_zero many) limit }
{
    if many < 0 {
        0
    } else {
        limit.min(many as usize)
    }
}

/// `getreverse`, and what `reverse` puts into its list: the items from the last to the first.
pub fn reverse_of(alloc: Global, items: &Items) -> Result<Items, NoMemory>
    ensures { IfOk result (λ reversed. reversed ≡ reverse items.now) }
{
    let mut reversed = Items::new(alloc);
    let mut rest = items.as_slice();
    let _few = items.len();
    while let [more @ .., last] = rest {
        add(alloc, &mut reversed, last)?;
        rest = more;
    }
    Ok(reversed)
}

/// The items of a collection that has these, which are not too many.
fn items_of(alloc: Global, scalars: &[Scalar]) -> Result<Items, NoMemory>
    requires { length scalars.now ≤ collection_limit }
    ensures { IfOk result (λ items. items ≡ scalars.now) }
{
    let mut items = Items::new(alloc);
    for scalar in scalars {
        add(alloc, &mut items, scalar)?;
    }
    Ok(items)
}

/// Adds a copy of the item at the end, where there is room for it.
fn add(alloc: Global, items: &mut Items, item: &Scalar) -> Result<(), NoMemory>
    ensures { OnOk result (items.new ≡ items.old ++ item.now ∷ []) }
{
    match items.push(item.copy(alloc)?) {
        Ok(()) => Ok(()),
        Err(_) => Err(NoMemory),
    }
}

/// `findfirst`: the place from 1 on of the first item that is this one, or 0.
pub fn place_of_first(items: &Items, x: &Scalar) -> i32
    ensures { result ≡ pos (spec.place_of_first items.now x.now) }
{
    let _few = items.len();
    match place_among(items.as_slice(), x) {
        Some(place) => place as i32 + 1,
        None => 0,
    }
}

/// `findlast`: the place from 1 on of the last item that is this one, or 0.
pub fn place_of_last(items: &Items, x: &Scalar) -> i32
    ensures { result ≡ pos (spec.place_of_last items.now x.now) }
{
    let _few = items.len();
    last_place(items.as_slice(), x) as i32
}

/// The place from 0 on of the first item that is this one.
fn place_among(items: &[Scalar], x: &Scalar) -> Option<usize>
    ensures place { result ≡ position (is_same x.now) items.now }
    ensures within { IfSome result (λ place. place < length items.now) }
{
    items.iter().position(|item| same_one(x, item))
}

/// The place from 1 on of the last item that is this one, or 0.
fn last_place(items: &[Scalar], x: &Scalar) -> usize
    ensures place { result ≡ spec.place_of_last items.now x.now }
    ensures within { result ≤ length items.now }
{
    let mut found = 0;
    let mut place = 0;
    for item in items {
        place += 1;
        if same_one(x, item) {
            found = place;
        }
    }
    found
}
