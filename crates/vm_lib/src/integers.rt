//! Functions on integers.
ghost use Rattle.std.specs.Prelude.{◌≡◌};
ghost use Rattle.vm_lib.specs.Integers as spec;

use mos_text::FaultKind;
use mos_value::negative_of;

/// `abs`: the number without its sign. Of the least integer it is OVERFLOW.
pub fn absolute_of(a: i32) -> Result<i32, FaultKind>
    ensures { result ≡ spec.absolute_of a }
{
    if a < 0 { negative_of(a) } else { Ok(a) }
}

/// `isodd`: whether two leaves something over; below 0 too.
pub fn is_odd(a: i32) -> bool
    ensures { result ≡ spec.is_odd a }
{
    a.wrapping_rem(2) != 0
}

/// `minlist`: the least of these, where there is one.
pub fn least_of(numbers: &[i32]) -> Option<i32>
    ensures { result ≡ spec.least_of numbers.now }
{
    let (first, more) = numbers.split_first()?;
    let mut least = *first;
    for number in more {
        least = least.min(*number);
    }
    Some(least)
}

/// `maxlist`: the greatest of these, where there is one.
pub fn greatest_of(numbers: &[i32]) -> Option<i32>
    ensures { result ≡ spec.greatest_of numbers.now }
{
    let (first, more) = numbers.split_first()?;
    let mut greatest = *first;
    for number in more {
        greatest = greatest.max(*number);
    }
    Some(greatest)
}
