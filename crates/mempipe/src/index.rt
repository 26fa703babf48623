//! How the index takes an entry.
ghost use Rattle.std.specs.Prelude.{◌≡◌, ◌<◌, ◌++◌, [], ◌∷◌, ℕ, List, Some, None, true, slice_index_or, IfOk, OnOk, OnErr, IsOk, IsSome, ◌⊎◌, length, if◌then◌else◌, ◌&&◌};
ghost use Rattle.job_calls.specs.declared.entry.Entry.{Entry};
ghost use Rattle.job_calls.specs.Entries.{is_run, is_finish};
ghost use Rattle.job_calls.specs.Models.{parent_of};
ghost use Rattle.job_calls.specs.Legal.{IsLegal};
ghost use Rattle.mempipe.specs.Index as index;
ghost use Rattle.mempipe.specs.Index.{IsIndexOf, StandsFor, CanTake, IsQuiet};

use crate::finishes::{run_finished, run_told};
use crate::pipe::Pipe;
use crate::pipes::Pipes;
use growing_lists::{cover, cover_told, one_more, put};
use job_calls::Entry;
use job_laws::laws;
use mos_text::NoMemory;
use std::alloc::Global;

impl Pipe {
    /// The index of the empty journal, with room for the end of run 0.
    pub fn new(alloc: Global) -> Result<Pipe, NoMemory>
        ensures { IfOk result (λ pipe. IsIndexOf pipe []) }
    {
        let mut finishes = Vec::new(alloc);
        cover(&mut finishes, 0, None)?;
        Ok(Pipe {
            pipes: Pipes::new(alloc),
            finishes,
            count: 0,
            alloc,
        })
    }

    /// Makes the room that the next `note` of this entry takes. What is indexed stays.
    pub fn ready_for(&mut self, entry: &Entry) -> Result<(), NoMemory>
        ensures ready { OnOk result (CanTake self.new entry.now) }
        ensures same { StandsFor self.old self.new }
        ensures sure { CanTake self.old entry.now → IsOk result }
    {
        cover_told(&mut self.finishes, run_told(entry), None)?;
        self.pipes.ready_for(self.alloc, entry)
    }

    /// Adds an entry; without memory the journal that is indexed stays.
    pub fn note(&mut self, entry: &Entry) -> Result<(), NoMemory>
        ensures noted { OnOk result ((journal : List Entry) → IsIndexOf self.old journal
            → IsLegal (journal ++ entry.now ∷ [])
            → IsIndexOf self.new (journal ++ entry.now ∷ [])) }
        ensures same { OnErr result (StandsFor self.old self.new) }
        ensures sure { CanTake self.old entry.now → IsOk result }
    {
        laws::few_entries();
        laws::replies_are_true();
        self.ready_for(entry)?;
        self.pipes.tell(entry, self.count);
        tell_finish(&mut self.finishes, entry, self.count);
        self.count = one_more(self.count);
        Ok(())
    }

    /// The end of a run can be noted without memory: it does nothing, and says so of the entry.
    pub fn can_end(&self, entry: &Entry)
        ensures { (journal : List Entry) (run : ℕ) → IsIndexOf self.now journal → entry.now.run
            ≡ Some run → is_finish entry.now.call ≡ true
            → (run ≡ 0) ⊎ IsSome (parent_of run journal) → CanTake self.now entry.now }
    {
        let _ = entry;
    }

    /// An entry that speaks of no pipe, and by which no run starts or finishes, can be noted without
    /// memory: it does nothing, and says so of the entry.
    pub fn can_note(&self, entry: &Entry)
        ensures { IsQuiet entry.now → CanTake self.now entry.now }
    {
        let _ = entry;
    }
}

/// The run that finishes by the entry has finished at this place.
fn tell_finish(finishes: &mut Vec<Option<u32>>, entry: &Entry, place: u32)
    requires { (k : ℕ) → index.run_told entry.now.run entry.now.call entry.now.reply ≡ Some k
        → k < length finishes.old.items }
    ensures finished { (k : ℕ) → slice_index_or finishes.new.items k None
        ≡ (if is_run k entry.now.run && is_finish entry.now.call then Some place
        else slice_index_or finishes.old.items k None) }
    ensures length { length finishes.new.items ≡ length finishes.old.items }
{
    if let Some(run) = run_finished(entry) {
        put(finishes, run, Some(place));
    }
}
