//! The four indexes in one: what an entry makes of them.
ghost use Rattle.std.specs.Prelude.{◌≡◌, ◌++◌, [], ◌∷◌, List, IfOk, OnOk, OnErr, IsOk, IsTrue};
ghost use Rattle.job_calls.specs.declared.entry.Entry.{Entry};
ghost use Rattle.job_calls.specs.Legal.{IsLegal};
ghost use Rattle.hub_index.specs.Index.{IsIndexOf, StandsFor, CanTake};
ghost use Rattle.hub_index.specs.Light.{is_light};

use event_queue::EventQueue;
use hub_words::{FULL_WEIGHT, less_call};
use job_calls::Entry;
use job_laws::laws;
use mempipe::Pipe;
use model_table::ModelTable;
use mos_text::NoMemory;
use shmem_block::Blocks;
use std::alloc::Global;

/// The indexes of a journal: of its models and runs, its events, its blocks and files, and its pipes.
#[derive(Drop)]
pub struct HubIndex {
    pub(crate) models: ModelTable,
    pub(crate) events: EventQueue,
    pub(crate) blocks: Blocks,
    pub(crate) pipes: Pipe,
    /// How many bytes the texts and blobs of calls may still weigh, and one more.
    pub(crate) left: usize,
}

impl HubIndex {
    /// The indexes of the empty journal.
    pub fn new(alloc: Global) -> Result<HubIndex, NoMemory>
        ensures { IfOk result (λ index. IsIndexOf index []) }
    {
        Ok(HubIndex {
            models: ModelTable::new(alloc)?,
            events: EventQueue::new(alloc)?,
            blocks: Blocks::new(alloc)?,
            pipes: Pipe::new(alloc)?,
            left: FULL_WEIGHT,
        })
    }

    /// Makes the room that the next `note` of this entry takes. What is indexed stays.
    pub fn ready_for(&mut self, entry: &Entry) -> Result<(), NoMemory>
        ensures ready { OnOk result (CanTake self.new entry.now) }
        ensures same { StandsFor self.old self.new }
        ensures sure { CanTake self.old entry.now → IsOk result }
    {
        self.models.ready_for(entry)?;
        self.events.ready_for(entry)?;
        self.blocks.ready_for(entry)?;
        self.pipes.ready_for(entry)
    }

    /// Adds an entry to all of them; without memory the journal that is indexed stays.
    pub fn note(&mut self, entry: &Entry) -> Result<(), NoMemory>
        ensures noted { OnOk result ((journal : List Entry) → IsIndexOf self.old journal
            → IsLegal (journal ++ entry.now ∷ [])
            → IsIndexOf self.new (journal ++ entry.now ∷ [])) }
        ensures same { OnErr result (StandsFor self.old self.new) }
        ensures sure { CanTake self.old entry.now → IsOk result }
    {
        self.ready_for(entry)?;
        self.take(entry);
        Ok(())
    }

    /// Adds an entry that each of them can take.
    pub(crate) fn take(&mut self, entry: &Entry)
        requires { CanTake self.old entry.now }
        ensures { (journal : List Entry) → IsIndexOf self.old journal
            → IsLegal (journal ++ entry.now ∷ [])
            → IsIndexOf self.new (journal ++ entry.now ∷ []) }
    {
        laws::few_entries();
        done(self.models.note(entry));
        done(self.events.note(entry));
        done(self.blocks.note(entry));
        done(self.pipes.note(entry));
        self.left = less_call(self.left, &entry.call);
    }

    /// An entry of a claim, of the end of a run, of `Quit`, `Wait`, `Peek` or `IsEmpty` can be noted
    /// without memory: it does nothing, and says so.
    pub fn can_note(&self, entry: &Entry)
        ensures { (journal : List Entry) → IsIndexOf self.now journal
            → IsLegal (journal ++ entry.now ∷ []) → IsTrue (is_light entry.now.call)
            → CanTake self.now entry.now }
    {
        laws::grows();
        laws::given_in_order();
        laws::one_lane_a_run();
        laws::runs_have_sources();
        self.models.can_note(entry);
        self.events.can_end(entry);
        self.pipes.can_end(entry);
        self.pipes.can_note(entry);
    }
}

/// It was done, as was promised.
fn done(noted: Result<(), NoMemory>)
    requires { IsOk noted }
{
    let Ok(()) = noted else { unreachable!() };
}
