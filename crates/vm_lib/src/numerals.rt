//! Integers as texts write them.
ghost use Rattle.std.specs.Prelude.{◌≡◌, ◌∷◌, ◌≤◌, ℕ, List, neg_ℤ, pos, option_map};
ghost use Rattle.vm_lib.specs.Numerals as spec;
ghost use Rattle.vm_lib.specs.Growing.{if_up_to_least, IsUpToLeast, number_behind, number_then};

use mos_text::{FaultKind, Text};

/// The greatest number of digits behind a `-`.
const LEAST: u32 = 2_147_483_648;

/// `integer` of a text: decimal digits, perhaps behind a `-`, with 32 bits. Another text is BADDATA.
pub fn integer_of_text(text: &Text) -> Result<i32, FaultKind>
    ensures { result ≡ spec.integer_of_text text.now }
{
    match text.as_bytes() {
        [] => Err(FaultKind::BadData),
        [first, more @ ..] => {
            if *first == b'-' {
                return negative(digits(more));
            }
            positive(digits(text.as_bytes()))
        }
    }
}

/// `integer` of a truth: 1 where it is true, and 0 where it is not.
pub fn integer_of_truth(truth: bool) -> i32
    ensures { result ≡ spec.integer_of_truth truth }
{
    if truth { 1 } else { 0 }
}

/// The integer of so many below 0.
fn negative(number: Option<u32>) -> Result<i32, FaultKind>
    requires { IsUpToLeast number }
    ensures { result ≡ spec.or_bad_data (option_map (λ n. neg_ℤ (pos n)) number) }
{
    match number {
        Some(LEAST) => Ok(i32::MIN),
        Some(number) => Ok(-(number as i32)),
        None => Err(FaultKind::BadData),
    }
}

/// The integer of so many from 0 on, where it has 32 bits.
fn positive(number: Option<u32>) -> Result<i32, FaultKind>
    ensures { result ≡ spec.or_bad_data (option_map pos number) }
{
    match number {
        Some(number) if number < LEAST => Ok(number as i32),
        Some(_) | None => Err(FaultKind::BadData),
    }
}

/// The number that decimal digits write, where it is not above the greatest.
fn digits(text: &[u8]) -> Option<u32>
    ensures value { result ≡ if_up_to_least (spec.digits text.now) }
    ensures small { IsUpToLeast result }
{
    if text.is_empty() {
        return None;
    }
    let mut number: u32 = 0;
    for byte in text {
        match digit_behind(number, *byte) {
            Some(more) => number = more,
            None => return None,
        }
    }
    Some(number)
}

/// The number with one digit more.
fn digit_behind(number: u32, byte: u8) -> Option<u32>
    requires { number ≤ 2147483648 }
    ensures digits { (rest : List ℕ) → number_behind number (byte ∷ rest)
        ≡ number_then result rest }
    ensures small { IsUpToLeast result }
{
    if byte < b'0' || byte > b'9' {
        return None;
    }
    let more = 10 * u64::from(number) + u64::from(byte - b'0');
    if more > u64::from(LEAST) {
        return None;
    }
    Some(more as u32)
}
