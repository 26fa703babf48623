//! Lists of named things: the first of a name, and what a folder in memory answers.
ghost use Rattle.std.specs.Prelude.{◌≡◌, option_copied, ◌≢◌};
ghost use Rattle.std.specs.Ordering.{nat_cmp};
ghost use Rattle.std.specs.Cmp.Lexicographic.{slice_cmp};
ghost use Rattle.std.specs.FinMap.{find};
ghost use Rattle.mos_text.specs.Content.{held_of, known_bytes, known_in_order};
ghost use Rattle.mos_text.specs.Gets.{Answers};

use crate::{Blob, Got, Text};
use std::alloc::Global;

/// What stands beside the first entry of this name.
pub(crate) fn find_entry<'a, T>(entries: &'a [(Text, T)], name: &Text) -> Option<&'a T>
    ensures { option_copied result ≡ find (slice_cmp nat_cmp) name.now entries.now }
{
    for entry in entries {
        if entry.0.is(name) {
            return Some(&entry.1);
        }
    }
    None
}

/// The bytes of the first file of this name.
pub(crate) fn find_bytes<'a>(files: &'a [(Text, Blob)], name: &Text) -> Option<&'a [u8]>
    ensures { option_copied result ≡ find (slice_cmp nat_cmp) name.now files.now }
{
    match find_entry(files, name) {
        Some(blob) => Some(blob.as_bytes()),
        None => None,
    }
}

/// The bytes of the first entry of this name, or else of the first file of this name; an entry
/// without bytes hides the files.
pub(crate) fn find_latest<'a>(
    entries: &'a [(Text, Option<Blob>)],
    files: &'a [(Text, Blob)],
    name: &Text,
) -> Option<&'a [u8]>
    ensures { option_copied result ≡ known_bytes (known_in_order
        (find (slice_cmp nat_cmp) name.now entries.now)
        (find (slice_cmp nat_cmp) name.now files.now)) }
{
    match find_entry(entries, name) {
        Some(Some(blob)) => Some(blob.as_bytes()),
        Some(None) => None,
        None => find_bytes(files, name),
    }
}

/// A copy of the bytes, where there are any and the limit allows them.
pub(crate) fn give(alloc: Global, held: Option<&[u8]>, limit: u32) -> Got
    ensures answer { Answers (held_of (option_copied held.entry)) limit result }
    ensures sure { result ≢ Got.Failed }
{
    let Some(bytes) = held else {
        return Got::Missing;
    };
    if bytes.len() > limit as usize {
        return Got::TooLarge;
    }
    match Blob::new(alloc, bytes) {
        Ok(blob) => Got::Bytes(blob),
        Err(_) => Got::NoMemory,
    }
}
