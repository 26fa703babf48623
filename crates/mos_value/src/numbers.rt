//! Operators on integers: the exact number, or the fault that the language has there.
ghost use Rattle.std.specs.Prelude.{◌≡◌};
ghost use Rattle.mos_value.specs.Numbers.{sum_of, difference_of, product_of, negative_of, quotient_of, remainder_of};
ghost use Rattle.mos_value.specs.ScalarLaws.{DivisionIsExact, RemainderIsSmaller, RemainderHasLeftSign};

use mos_text::FaultKind;

/// `a + b`, or OVERFLOW.
pub fn sum_of(a: i32, b: i32) -> Result<i32, FaultKind>
    ensures { result ≡ sum_of a b }
{
    a.checked_add(b).ok_or(FaultKind::Overflow)
}

/// `a - b`, or OVERFLOW.
pub fn difference_of(a: i32, b: i32) -> Result<i32, FaultKind>
    ensures { result ≡ difference_of a b }
{
    a.checked_sub(b).ok_or(FaultKind::Overflow)
}

/// `a * b`, or OVERFLOW.
pub fn product_of(a: i32, b: i32) -> Result<i32, FaultKind>
    ensures { result ≡ product_of a b }
{
    a.checked_mul(b).ok_or(FaultKind::Overflow)
}

/// `-a`, or OVERFLOW: of the least integer alone.
pub fn negative_of(a: i32) -> Result<i32, FaultKind>
    ensures { result ≡ negative_of a }
{
    a.checked_neg().ok_or(FaultKind::Overflow)
}

/// `a div b`, which rounds toward zero. By zero it is DIVZERO; the least integer by -1 is OVERFLOW.
pub fn quotient_of(a: i32, b: i32) -> Result<i32, FaultKind>
    ensures { result ≡ quotient_of a b }
{
    if b == 0 {
        return Err(FaultKind::DivZero);
    }
    a.checked_div(b).ok_or(FaultKind::Overflow)
}

/// `a mod b`, which has the sign of `a` or is 0. By zero it is DIVZERO; the least integer by -1 leaves 0.
pub fn remainder_of(a: i32, b: i32) -> Result<i32, FaultKind>
    ensures { result ≡ remainder_of a b }
{
    if b == 0 {
        return Err(FaultKind::DivZero);
    }
    Ok(a.wrapping_rem(b))
}

/// What `div` and `mod` have to do with one another.
pub fn division_laws()
    ensures exact { DivisionIsExact }
    ensures smaller { RemainderIsSmaller }
    ensures left_sign { RemainderHasLeftSign }
{}
