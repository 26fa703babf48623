//! Blocks of memory and files: the place of the last write under each name.
ghost use Rattle.std.specs.Prelude.{◌≡◌, ◌<◌, ◌^◌, ◌++◌, [], ◌∷◌, ℕ, List, IfOk, OnOk, OnErr, IsOk, MatchOption, length, option_map};
ghost use Rattle.job_calls.specs.declared.entry.Entry.{Entry};
ghost use Rattle.job_calls.specs.Blocks as words;
ghost use Rattle.shmem_block.specs.Index.{IsIndexOf, CanTake, StandsFor, WritesNothing, WritesUnder};

use crate::places::Places;
use growing_lists::one_more;
use job_calls::{Call, Entry, Reply};
use mos_text::{NoMemory, Place, Text};
use std::alloc::Global;

/// The last write under each name, by its place in the journal. The bytes stand in the journal alone.
#[derive(Drop)]
pub struct Blocks {
    writes: Places,
    count: u32,
    alloc: Global,
}

impl Blocks {
    /// The index of the empty journal.
    pub fn new(alloc: Global) -> Result<Blocks, NoMemory>
        ensures { IfOk result (λ blocks. IsIndexOf blocks []) }
    {
        Ok(Blocks {
            writes: Places::new(alloc),
            count: 0,
            alloc,
        })
    }

    /// The place of the last write under this name.
    pub fn last_of(&self, name: &Text) -> Option<Place>
        ensures { (journal : List Entry) → IsIndexOf self.now journal
            → option_map (λ place. place.0) result ≡ words.last_write name.now journal }
    {
        match self.writes.place(name) {
            Some(place) => Some(Place(place)),
            None => None,
        }
    }

    /// Makes the room that the next `note` of this entry takes. What is indexed stays.
    pub fn ready_for(&mut self, entry: &Entry) -> Result<(), NoMemory>
        ensures ready { OnOk result (CanTake self.new entry.now) }
        ensures same { StandsFor self.old self.new }
        ensures sure { CanTake self.old entry.now → IsOk result }
    {
        match written_name(entry) {
            Some(name) => self.writes.know(self.alloc, name),
            None => Ok(()),
        }
    }

    /// Adds an entry; without memory the journal that is indexed stays.
    pub fn note(&mut self, entry: &Entry) -> Result<(), NoMemory>
        ensures noted { OnOk result ((journal : List Entry) → IsIndexOf self.old journal
            → length journal < 2 ^ 31
            → IsIndexOf self.new (journal ++ entry.now ∷ [])) }
        ensures same { OnErr result (StandsFor self.old self.new) }
        ensures sure { CanTake self.old entry.now → IsOk result }
    {
        self.ready_for(entry)?;
        if let Some(name) = written_name(entry) {
            self.writes.put(name, self.count);
        }
        self.count = one_more(self.count);
        Ok(())
    }
}

/// The name that bytes are written under.
fn written_name(entry: &Entry) -> Option<&Text>
    ensures { MatchOption result (WritesNothing entry.now)
        (λ name. WritesUnder name.now entry.now) }
{
    match (&entry.call, &entry.reply) {
        (Call::Write { name, .. }, Reply::Unit) => Some(name),
        _ => None,
    }
}
