//! The index of a journal: what it is asked, and how it takes an entry.
ghost use Rattle.std.specs.Prelude.{◌≡◌, ◌++◌, [], ◌∷◌, ℕ, List, Some, IfOk, OnOk, OnErr, IsOk, IsSome, ◌⊎◌, true, false, length, option_map};
ghost use Rattle.job_calls.specs.declared.entry.Entry.{Entry};
ghost use Rattle.job_calls.specs.Events as events;
ghost use Rattle.job_calls.specs.Entries.{is_finish, is_finished};
ghost use Rattle.job_calls.specs.Models.{parent_of};
ghost use Rattle.job_calls.specs.Legal.{IsLegal};
ghost use Rattle.event_queue.specs.Index.{IsIndexOf, StandsFor, CanTake};

use crate::queues::EventQueue;
use crate::steps::{add, facts, first_place, queue_length};
use crate::telling::{ready, tell};
use growing_lists::one_more;
use job_calls::Entry;
use job_laws::laws;
use mos_text::{NoMemory, Place};
use std::alloc::Global;

impl EventQueue {
    /// The index of the empty journal, with room for run 0.
    pub fn new(alloc: Global) -> Result<EventQueue, NoMemory>
        ensures { IfOk result (λ index. IsIndexOf index []) }
    {
        let mut runs = Vec::new(alloc);
        add(alloc, &mut runs)?;
        Ok(EventQueue {
            runs,
            count: 0,
            alloc,
        })
    }

    /// The place of the first event that the run has not taken.
    pub fn first(&self, run: u32) -> Option<Place>
        ensures { (journal : List Entry) → IsIndexOf self.now journal
            → option_map (λ place. place.0) result ≡ events.first_event run journal }
    {
        match first_place(&self.runs, run) {
            Some(place) => Some(Place(place)),
            None => None,
        }
    }

    /// How many events the run has not taken.
    pub fn queue_length(&self, run: u32) -> usize
        ensures { (journal : List Entry) → IsIndexOf self.now journal
            → result ≡ length (events.queue run journal) }
    {
        queue_length(&self.runs, run)
    }

    /// The run that started this one.
    pub fn parent_of(&self, run: u32) -> Option<u32>
        ensures { (journal : List Entry) → IsIndexOf self.now journal
            → result ≡ parent_of run journal }
    {
        let (parent, _) = facts(&self.runs, run);
        parent
    }

    /// Makes the room that the next `note` of this entry takes. What is indexed stays.
    pub fn ready_for(&mut self, entry: &Entry) -> Result<(), NoMemory>
        ensures ready { OnOk result (CanTake self.new entry.now) }
        ensures same { StandsFor self.old self.new }
        ensures sure { CanTake self.old entry.now → IsOk result }
    {
        ready(self.alloc, &mut self.runs, entry)
    }

    /// Adds an entry; without memory the journal that is indexed stays.
    pub fn note(&mut self, entry: &Entry) -> Result<(), NoMemory>
        ensures noted { OnOk result ((journal : List Entry) → IsIndexOf self.old journal
            → IsLegal (journal ++ entry.now ∷ [])
            → IsIndexOf self.new (journal ++ entry.now ∷ [])) }
        ensures same { OnErr result (StandsFor self.old self.new) }
        ensures sure { CanTake self.old entry.now → IsOk result }
    {
        laws::few_entries();
        laws::legal_keeps_laws();
        self.ready_for(entry)?;
        tell(&mut self.runs, entry, self.count);
        self.count = one_more(self.count);
        Ok(())
    }

    /// The end of a run can be noted without memory: it does nothing, and says so of the entry.
    pub fn can_end(&self, entry: &Entry)
        ensures { (journal : List Entry) (run : ℕ) → IsIndexOf self.now journal → entry.now.run
            ≡ Some run → is_finish entry.now.call ≡ true
            → is_finished run journal ≡ false → (run ≡ 0) ⊎ IsSome (parent_of run journal)
            → CanTake self.now entry.now }
    {
        let _ = entry;
    }
}
