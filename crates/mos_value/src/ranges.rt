//! Operators on ranges. A range `a..b` has the integers from a to b, and none where b is below a.
ghost use Rattle.std.specs.Prelude.{◌≡◌, ◌↔◌, ◌≤ℤ◌, pos, IsTrue};
ghost use Rattle.mos_value.specs.Ranges.{range_count as count_of_range, range_members, range_set, range_size};
ghost use Rattle.mos_value.specs.UpToMemory.{UpToMemory};

use crate::{COLLECTION_LIMIT, Items, ValueFault};
use mos_text::{FaultKind, Scalar};
use std::alloc::Global;

/// How many integers a range has.
fn range_count(a: i32, b: i32) -> i64
    ensures { result ≡ pos (count_of_range a b) }
{
    if b < a {
        0
    } else {
        i64::from(b) - i64::from(a) + 1
    }
}

/// The set of the integers of a range.
pub fn range_set(alloc: Global, a: i32, b: i32) -> Result<Items, ValueFault>
    ensures { UpToMemory result (range_set a b) }
{
    if range_count(a, b) > COLLECTION_LIMIT as i64 {
        return Err(ValueFault::Fault(FaultKind::TooBig));
    }
    let mut members = Items::new(alloc);
    for number in i64::from(a)..i64::from(b) + 1 {
        members.push(Scalar::Int(number as i32))?;
    }
    Ok(members.into_run(a, b))
}

/// `getsize` of a range. Above 2147483647 it is an overflow.
pub fn range_size(a: i32, b: i32) -> Result<i32, FaultKind>
    ensures { result ≡ range_size a b }
{
    let count = range_count(a, b);
    if count <= i64::from(i32::MAX) {
        Ok(count as i32)
    } else {
        Err(FaultKind::Overflow)
    }
}

/// `in`: whether the integer is in the range.
pub fn range_has(a: i32, b: i32, x: i32) -> bool
    ensures { IsTrue result ↔ (a ≤ℤ x) × (x ≤ℤ b) }
{
    a <= x && x <= b
}

/// `=` between ranges: whether they have the same integers, so also where both have none.
pub fn same_range(a: (i32, i32), b: (i32, i32)) -> bool
    ensures { IsTrue result ↔ (range_members a.0 a.1 ≡ range_members b.0 b.1) }
{
    a.0 == b.0 && a.1 == b.1 || a.1 < a.0 && b.1 < b.0
}
