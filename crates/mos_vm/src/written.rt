//! Values as they are written in a parameter text.
ghost use Rattle.std.specs.Prelude.{◌≡◌, ◌∷◌, ◌≤◌, ◌<◌, ℕ, pos, List, IfOk, IsUtf8, length, get_or, nat_eq, option_map};
ghost use Rattle.std.specs.List.{list_any, position_or_len};
ghost use Rattle.run_state.specs.Parameters.{and_then, is_blank, skip_blanks, trim, is_quote, quoted_written, Bare, written_of, value_like, fitting, signed_digits, digits, truth_of, text_of};
ghost use Rattle.mos_vm.specs.Givens.{trimmed_end, up_to_least, IsUpToLeast, negative_of, number_behind};

use mos_text::{NoMemory, Scalar, TEXT_LIMIT, Text, TextFault};
use std::alloc::Global;

/// The greatest number of digits behind a `-`.
const LEAST: u32 = 2_147_483_648;

/// A space, a tab or a carriage return.
fn is_blank(byte: u8) -> bool
    ensures { result ≡ is_blank byte }
{
    byte == b' ' || byte == b'\t' || byte == b'\r'
}

/// A quote of either kind.
pub(crate) fn is_quote(byte: u8) -> bool
    ensures { result ≡ is_quote byte }
{
    byte == b'"' || byte == b'\''
}

/// The text without the blanks at both ends.
pub(crate) fn trimmed(text: &[u8]) -> &[u8]
    ensures value { result.now ≡ trim text.now }
    ensures utf8 { IsUtf8 text.now → IsUtf8 result.now }
{
    trimmed_end(skip_blanks(text))
}

fn skip_blanks(text: &[u8]) -> &[u8]
    ensures value { result.now ≡ skip_blanks text.now }
    ensures utf8 { IsUtf8 text.now → IsUtf8 result.now }
{
    for begin in 0..text.len() {
        if !is_blank(text[begin]) {
            return &text[begin..];
        }
    }
    &text[text.len()..]
}

fn trimmed_end(text: &[u8]) -> &[u8]
    ensures value { result.now ≡ trimmed_end text.now }
    ensures utf8 { IsUtf8 text.now → IsUtf8 result.now }
{
    let mut rest = text;
    while let [more @ .., last] = rest {
        if !is_blank(*last) {
            return rest;
        }
        rest = more;
    }
    rest
}

/// The place of a byte, or the length.
pub(crate) fn position(text: &[u8], wanted: u8) -> usize
    ensures value { result ≡ position_or_len (nat_eq wanted) text.now }
    ensures within { result ≤ length text.now }
    ensures there { result < length text.now → get_or text.now result 0 ≡ wanted }
{
    let mut place = 0;
    for byte in text {
        if wanted == *byte {
            return place;
        }
        place += 1;
    }
    place
}

/// The value that is written, of the type of this one.
pub(crate) fn value_written(
    alloc: Global,
    like: &Scalar,
    text: &[u8],
) -> Result<Option<Scalar>, NoMemory>
    requires { IsUtf8 text.now }
    ensures { IfOk result (λ value. value ≡ and_then (written_of text.now) (value_like like.now)) }
{
    match text {
        [] => bare_value(alloc, like, text),
        [first, more @ ..] => {
            if is_quote(*first) {
                return quoted_value(alloc, like, *first, more);
            }
            if has_quote(more) {
                return Ok(None);
            }
            bare_value(alloc, like, text)
        }
    }
}

fn has_quote(text: &[u8]) -> bool
    ensures { result ≡ list_any is_quote text.now }
{
    for byte in text {
        if is_quote(*byte) {
            return true;
        }
    }
    false
}

/// The value that is written without quotes.
fn bare_value(alloc: Global, like: &Scalar, text: &[u8]) -> Result<Option<Scalar>, NoMemory>
    requires { IsUtf8 text.now }
    ensures { IfOk result (λ value. value ≡ value_like like.now (Bare text.now)) }
{
    match like {
        Scalar::Int(_) => Ok(integer(text)),
        Scalar::Bool(_) => Ok(truth(text)),
        Scalar::Str(_) => text_value(alloc, text),
        Scalar::Model(_) | Scalar::Event(_, _) => Ok(None),
    }
}

/// The value that is written behind this quote.
fn quoted_value(
    alloc: Global,
    like: &Scalar,
    quote: u8,
    more: &[u8],
) -> Result<Option<Scalar>, NoMemory>
    requires utf8 { IsUtf8 more.now }
    requires ascii { quote < 128 }
    ensures { IfOk result
        (λ value. value ≡ and_then (quoted_written quote more.now) (value_like like.now)) }
{
    let end = position(more, quote);
    if end + 1 != more.len() {
        return Ok(None);
    }
    match like {
        Scalar::Str(_) => text_value(alloc, &more[..end]),
        Scalar::Int(_) | Scalar::Bool(_) | Scalar::Model(_) | Scalar::Event(_, _) => Ok(None),
    }
}

/// The text, where it is not too long.
fn text_value(alloc: Global, text: &[u8]) -> Result<Option<Scalar>, NoMemory>
    requires { IsUtf8 text.now }
    ensures { IfOk result (λ value. value ≡ text_of text.now) }
{
    if text.len() > TEXT_LIMIT {
        return Ok(None);
    }
    match Text::new(alloc, text) {
        Ok(text) => Ok(Some(Scalar::Str(text))),
        Err(TextFault::NoMemory) => Err(NoMemory),
        Err(TextFault::NotText) => unreachable!(),
    }
}

fn truth(text: &[u8]) -> Option<Scalar>
    ensures { result ≡ truth_of text.now }
{
    if text == b"true".as_slice() {
        return Some(Scalar::Bool(true));
    }
    if text == b"false".as_slice() {
        return Some(Scalar::Bool(false));
    }
    None
}

/// The integer, where the text is one of 32 bits.
fn integer(text: &[u8]) -> Option<Scalar>
    ensures { result ≡ fitting (signed_digits text.now) }
{
    match text {
        [] => None,
        [first, more @ ..] => {
            if *first == b'-' {
                return negative(digits(more));
            }
            positive(digits(text))
        }
    }
}

/// The integer of so many below 0.
fn negative(number: Option<u32>) -> Option<Scalar>
    requires { IsUpToLeast number }
    ensures { result ≡ option_map negative_of number }
{
    match number {
        Some(LEAST) => Some(Scalar::Int(i32::MIN)),
        Some(number) => Some(Scalar::Int(-(number as i32))),
        None => None,
    }
}

/// The integer of so many from 0 on, where it has 32 bits.
fn positive(number: Option<u32>) -> Option<Scalar>
    ensures { result ≡ fitting (option_map pos number) }
{
    match number {
        Some(number) if number < LEAST => Some(Scalar::Int(number as i32)),
        Some(_) | None => None,
    }
}

/// The number that decimal digits write, where it is not above the greatest.
fn digits(text: &[u8]) -> Option<u32>
    ensures value { result ≡ and_then (digits text.now) up_to_least }
    ensures small { IsUpToLeast result }
{
    if text.is_empty() {
        return None;
    }
    let mut number: u32 = 0;
    for byte in text {
        match digit_behind(number, *byte) {
            Some(more) => number = more,
            None => return None,
        }
    }
    Some(number)
}

/// The number with one digit more.
fn digit_behind(number: u32, byte: u8) -> Option<u32>
    requires { number ≤ 2147483648 }
    ensures digits { (rest : List ℕ)
        → number_behind number (byte ∷ rest) ≡ and_then result (λ n. number_behind n rest) }
    ensures small { IsUpToLeast result }
{
    if byte < b'0' || byte > b'9' {
        return None;
    }
    let more = 10 * u64::from(number) + u64::from(byte - b'0');
    if more > u64::from(LEAST) {
        return None;
    }
    Some(more as u32)
}
