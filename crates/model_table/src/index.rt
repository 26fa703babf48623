//! How the table takes an entry.
ghost use Rattle.std.specs.Prelude.{◌≡◌, ◌<◌, ◌≤◌, ◌+◌, ◌-◌, ◌^◌, ◌++◌, [], ◌∷◌, ℕ, List, Some, true, slice_index_or, IfOk, OnOk, OnErr, IsOk, length};
ghost use Rattle.job_calls.specs.declared.entry.Entry.{Entry};
ghost use Rattle.job_calls.specs.Entries as entries;
ghost use Rattle.growing_lists.specs.Growing.{as_number};
ghost use Rattle.model_table.specs.Tables as tables;
ghost use Rattle.model_table.specs.Tables.{unknown_run};
ghost use Rattle.model_table.specs.Index.{IsIndexOf, StandsFor, CanTake, IsQuiet, more, IsTold, IsTallied};

use crate::entries::{
    gives_run, image_made, is_loading, is_quit, is_started, lane_told, model_told, run_ended,
    run_over, run_told,
};
use crate::lane::Lane;
use crate::lanes::tell_lanes;
use crate::model::Model;
use crate::run::Run;
use crate::table::ModelTable;
use crate::telling::{Told, tell_models, tell_runs};
use growing_lists::{cover, cover_told};
use job_calls::Entry;
use mos_text::NoMemory;
use shmem_block::Places;
use std::alloc::Global;

impl ModelTable {
    /// The table of the empty journal, with room for run 0 and 64 lanes.
    pub fn new(alloc: Global) -> Result<ModelTable, NoMemory>
        ensures { IfOk result (λ table. IsIndexOf table []) }
    {
        let mut runs = Vec::new(alloc);
        cover(&mut runs, 0, Run::UNKNOWN)?;
        let mut lanes = Vec::new(alloc);
        cover(&mut lanes, 63, Lane::UNKNOWN)?;
        Ok(ModelTable {
            models: Vec::new(alloc),
            runs,
            lanes,
            images: Places::new(alloc),
            count: 0,
            loads: 0,
            started: 0,
            claimed: 0,
            live: 1,
            quit: false,
            alloc,
        })
    }

    /// Makes the room that the next `note` of this entry takes. What is indexed stays.
    pub fn ready_for(&mut self, entry: &Entry) -> Result<(), NoMemory>
        ensures ready { OnOk result (CanTake self.new entry.now) }
        ensures same { StandsFor self.old self.new }
        ensures sure { CanTake self.old entry.now → IsOk result }
    {
        cover_told(&mut self.models, model_told(entry), Model::UNKNOWN)?;
        cover_told(&mut self.lanes, lane_told(entry), Lane::UNKNOWN)?;
        ready_runs(&mut self.runs, entry, self.started.saturating_add(1))?;
        match image_made(entry) {
            Some(name) => self.images.know(self.alloc, name),
            None => Ok(()),
        }
    }

    /// Adds an entry; without memory the journal that is indexed stays.
    pub fn note(&mut self, entry: &Entry) -> Result<(), NoMemory>
        ensures noted { OnOk result ((journal : List Entry) → IsIndexOf self.old journal
            → length journal < 2 ^ 31
            → IsIndexOf self.new (journal ++ entry.now ∷ [])) }
        ensures same { OnErr result (StandsFor self.old self.new) }
        ensures sure { CanTake self.old entry.now → IsOk result }
    {
        self.ready_for(entry)?;
        let ends = self.is_ending(entry);
        self.tell(entry);
        let starts = self.is_starting(entry);
        self.tally(entry, ends, starts);
        Ok(())
    }

    /// An entry that tells of no model and no image and starts no run can be noted without memory, also the
    /// end of a run and a run that is given to a lane: it does nothing, and says so of the entry.
    pub fn can_note(&self, entry: &Entry)
        ensures { (journal : List Entry) → IsIndexOf self.now journal → IsQuiet entry.now
            → ((run : ℕ) → entry.now.run ≡ Some run → run < entries.run_count journal)
            → entry.now.lane < 64 → CanTake self.now entry.now }
    {
        let _ = entry;
    }

    /// What the entry tells of a model, a run and an image.
    fn tell(&mut self, entry: &Entry)
        requires { CanTake self.old entry.now }
        ensures { IsTold self.old self.new entry.now }
    {
        let told = Told {
            ended: run_ended(entry),
            started: self.run_started(entry),
            asked: self.run_asked(entry),
            over: run_over(entry),
        };
        tell_models(&mut self.models, entry);
        tell_lanes(&mut self.lanes, entry);
        tell_runs(&mut self.runs, told, self.count);
        if let Some(name) = image_made(entry) {
            self.images.put(name, self.count);
        }
    }

    /// Counts the entry, by which a live run ends or a run starts.
    fn tally(&mut self, entry: &Entry, ends: bool, starts: bool)
        requires { entries.is_started entry.now.reply ≡ true
            → more self.old.started true < length self.old.runs.items }
        ensures { IsTallied self.old self.new entry.now ends starts }
    {
        self.count = self.count.saturating_add(1);
        self.loads = more(self.loads, is_loading(entry));
        self.claimed = more(self.claimed, gives_run(entry));
        self.started = more(self.started, is_started(entry));
        self.live = lives(self.live, ends, starts);
        self.quit = self.quit || is_quit(entry);
    }
}

/// Makes places for the runs that the entry tells of, and for the next one where a run starts.
fn ready_runs(runs: &mut Vec<Run>, entry: &Entry, next: u32) -> Result<(), NoMemory>
    ensures told { OnOk result ((k : ℕ)
        → tables.run_told entry.now.run entry.now.call entry.now.reply ≡ Some k
        → k < length runs.new.items) }
    ensures over { OnOk result ((k : ℕ) → tables.over_told entry.now.run entry.now.reply ≡ Some k
        → k < length runs.new.items) }
    ensures next { OnOk result (entries.is_started entry.now.reply ≡ true
        → next < length runs.new.items) }
    ensures same { (k : ℕ) → slice_index_or runs.new.items k unknown_run
        ≡ slice_index_or runs.old.items k unknown_run }
    ensures longer { length runs.old.items ≤ length runs.new.items }
    ensures sure { ((k : ℕ) → tables.run_told entry.now.run entry.now.call entry.now.reply ≡ Some k
        → k < length runs.old.items)
        → ((k : ℕ) → tables.over_told entry.now.run entry.now.reply ≡ Some k
        → k < length runs.old.items)
        → (entries.is_started entry.now.reply ≡ true → next < length runs.old.items) → IsOk result }
{
    cover_told(runs, run_told(entry), Run::UNKNOWN)?;
    cover_told(runs, run_over(entry), Run::UNKNOWN)?;
    if is_started(entry) {
        cover(runs, next, Run::UNKNOWN)
    } else {
        Ok(())
    }
}

/// One more, where it counts; the greatest number stays.
fn more(count: u32, counts: bool) -> u32
    ensures { result ≡ more count counts }
{
    if counts {
        count.saturating_add(1)
    } else {
        count
    }
}

/// How many runs are live, after one that may have ended and one that may have started.
fn lives(live: usize, ends: bool, starts: bool) -> usize
    ensures { live < 2 ^ 32 → result ≡ (live - as_number ends) + as_number starts }
{
    let going = if ends { live.saturating_sub(1) } else { live };
    if starts {
        going.saturating_add(1)
    } else {
        going
    }
}
