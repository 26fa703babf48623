//! Things by their numbers from 0, alike from some number on.
ghost use Rattle.std.specs.Prelude.{◌≡◌, ◌<◌, ◌≤◌, ℕ, Some, OnOk, IsOk, length, nat_eq, slice_index_or, if◌then◌else◌};

use mos_text::NoMemory;

/// The thing of this number; behind the last one all are `rest`.
pub fn at<T: Copy>(things: &[T], number: u32, rest: T) -> T
    ensures { result ≡ slice_index_or things.now number rest }
{
    things.get(number as usize).copied().unwrap_or(rest)
}

/// Makes a place for the thing of this number. The things stay.
pub fn cover<T: Copy>(things: &mut Vec<T>, number: u32, rest: T) -> Result<(), NoMemory>
    ensures covers { OnOk result (number < length things.new.items) }
    ensures same { (k : ℕ) → slice_index_or things.new.items k rest
        ≡ slice_index_or things.old.items k rest }
    ensures longer { length things.old.items ≤ length things.new.items }
    ensures sure { number < length things.old.items → IsOk result }
{
    if (number as usize) < things.len() {
        return Ok(());
    }
    things.resize(number as usize + 1, rest)?;
    Ok(())
}

/// Makes a place for the thing of this number, if there is one.
pub fn cover_told<T: Copy>(
    things: &mut Vec<T>,
    number: Option<u32>,
    rest: T,
) -> Result<(), NoMemory>
    ensures covers { OnOk result ((k : ℕ) → number ≡ Some k → k < length things.new.items) }
    ensures same { (k : ℕ) → slice_index_or things.new.items k rest
        ≡ slice_index_or things.old.items k rest }
    ensures longer { length things.old.items ≤ length things.new.items }
    ensures sure { ((k : ℕ) → number ≡ Some k → k < length things.old.items) → IsOk result }
{
    match number {
        Some(number) => cover(things, number, rest),
        None => Ok(()),
    }
}

/// Puts another thing in the place of this number, where there is one.
pub fn put<T: Copy>(things: &mut Vec<T>, number: u32, thing: T)
    ensures put { (k : ℕ) (d : T) → number < length things.old.items
        → slice_index_or things.new.items k d
        ≡ (if nat_eq number k then thing else slice_index_or things.old.items k d) }
    ensures past { length things.old.items ≤ number → things.new.items ≡ things.old.items }
    ensures length { length things.new.items ≡ length things.old.items }
{
    if let Some(place) = things.get_mut(number as usize) {
        *place = thing;
    }
}
