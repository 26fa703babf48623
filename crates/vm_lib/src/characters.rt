//! Functions on texts, whose sizes and places count characters.
ghost use Rattle.std.specs.Prelude.{◌≡◌, ◌≤◌, IfOk, length, string_bytes};
ghost use Rattle.std.specs.Str.{chars};
ghost use Rattle.mos_value.specs.UpToMemory.{UpToMemory};
ghost use Rattle.vm_lib.specs.Characters as spec;

use mos_text::{FaultKind, Text};
use mos_value::ValueFault;
use std::alloc::{AllocError, Global};

/// `getsize` of a text: the number of its characters. Above 2147483647 it is an overflow.
pub fn text_size(text: &Text) -> Result<i32, FaultKind>
    ensures { result ≡ spec.text_size text.now }
{
    let size = count(text.as_str());
    if size <= i32::MAX as usize {
        Ok(size as i32)
    } else {
        Err(FaultKind::Overflow)
    }
}

fn count(text: &str) -> usize
    ensures { result ≡ length (chars text.now) }
{
    text.chars().count()
}

/// `substr`: the characters from the place `first` to the place `last`, both from 1 on. Where `first` is below 1 or above
/// `last`, or `last` above the text's size, it is RANGE.
pub fn part_of(alloc: Global, text: &Text, first: i32, last: i32) -> Result<Text, ValueFault>
    ensures { UpToMemory result (spec.part_of text.now first last) }
{
    if are_places(first, last, count(text.as_str())) {
        let part = part_between(alloc, text.as_str(), first as usize, last as usize)?;
        Ok(Text::from_string(part))
    } else {
        Err(ValueFault::Fault(FaultKind::Range))
    }
}

fn are_places(first: i32, last: i32, size: usize) -> bool
    ensures { result ≡ spec.are_places first last size }
{
    1 <= first && (first <= last && last as usize <= size)
}

fn part_between(alloc: Global, text: &str, first: usize, last: usize) -> Result<String, AllocError>
    requires from_one { 1 ≤ first }
    requires ordered { first ≤ last }
    ensures { IfOk result (λ part. string_bytes part ≡ spec.part_between text.now first last) }
{
    let before = first - 1;
    let many = last - before;
    text.chars().skip(before).take(many).collect(alloc)
}
