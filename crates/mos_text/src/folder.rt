//! Places that keep files by name: what each may answer, and what stands after each answer.
ghost use Rattle.std.specs.Prelude.{◌≡◌, ℕ, ◌≤◌, List, Option};
ghost use Rattle.mos_text.specs.Content.{Files, known_of, put_file, lose_file, SameElsewhere};
ghost use Rattle.mos_text.specs.Gets.{Answers};
ghost use Rattle.mos_text.specs.Faults.{Rose};

use crate::{Blob, Text};
use std::alloc::Global;

/// What a folder answers to `get`.
#[derive(Debug, Drop)]
pub enum Got {
    Bytes(Blob),
    /// There is no file of this name.
    Missing,
    /// The file is longer than the limit.
    TooLarge,
    /// The folder failed; its count of faults rose.
    Failed,
    NoMemory,
}

/// What a folder answers to `put`.
#[derive(Clone, Copy, Debug, PartialEq, Drop)]
pub enum Stored {
    Done,
    /// The folder failed; its count of faults rose.
    Failed,
    NoMemory,
}

/// A place that keeps files by name.
///
/// A folder's content is known, as a finite map, or nothing is known of it, as of a folder of the
/// system. A single name may be unknown too: that is how a failed `put` leaves it.
pub trait Folder {
    /// The files, where they are known.
    ghost content: { Self → Option Files };

    /// How often the folder has failed; it never falls.
    ghost faults: { Self → ℕ };

    /// The bytes of the file, of which there are at most `limit`.
    fn get(&mut self, alloc: Global, name: &Text, limit: u32) -> Got
        ensures answer { Answers (known_of (content self.old) name.now) limit result }
        ensures content { content self.new ≡ content self.old }
        ensures later { faults self.old ≤ faults self.new }
        ensures failed { result ≡ Got.Failed → Rose (faults self.old) (faults self.new) };

    /// Makes the bytes those of the name, whether or not there was such a file. After a failure the
    /// bytes of the name are not known; after want of memory nothing is claimed of that name.
    fn put(&mut self, alloc: Global, name: &Text, bytes: &[u8]) -> Stored
        ensures done { result ≡ Stored.Done
            → content self.new ≡ put_file (content self.old) name.now bytes.now }
        ensures lost { result ≡ Stored.Failed
            → content self.new ≡ lose_file (content self.old) name.now }
        ensures others { SameElsewhere name.now (content self.old) (content self.new) }
        ensures later { faults self.old ≤ faults self.new }
        ensures failed { result ≡ Stored.Failed → Rose (faults self.old) (faults self.new) };
}
