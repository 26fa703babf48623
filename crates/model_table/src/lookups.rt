//! What the table is asked.
ghost use Rattle.std.specs.Prelude.{◌≡◌, ◌<◌, ◌^◌, List, length, option_map};
ghost use Rattle.job_calls.specs.declared.entry.Entry.{Entry};
ghost use Rattle.job_calls.specs.Entries as entries;
ghost use Rattle.job_calls.specs.Runs as runs;
ghost use Rattle.job_calls.specs.Models as models;
ghost use Rattle.job_calls.specs.Fitting as fitting;
ghost use Rattle.job_calls.specs.Blocks.{last_place};
ghost use Rattle.model_table.specs.Tables.{starts_run};
ghost use Rattle.model_table.specs.Index.{IsIndexOf, GivesInOrder, makes_image, status_by};

use crate::table::ModelTable;
use job_calls::End;
use mos_text::{Place, Text};

impl ModelTable {
    /// The number of the model's status: 0 not loaded, 1 never run, 2 live, and from 3 on how its current
    /// run has ended.
    pub fn status_of(&self, model: u32) -> i32
        ensures { (journal : List Entry) → IsIndexOf self.now journal
            → result ≡ models.status_of model journal }
    {
        let model = self.model(model);
        if !model.loaded {
            return 0;
        }
        match model.current {
            None => 1,
            Some(run) => run_status(self.run(run).end),
        }
    }

    /// The model was loaded, and not unloaded since.
    pub fn is_loaded(&self, model: u32) -> bool
        ensures { (journal : List Entry) → IsIndexOf self.now journal
            → result ≡ models.is_loaded model journal }
    {
        self.model(model).loaded
    }

    /// The last run of the model.
    pub fn current_run(&self, model: u32) -> Option<u32>
        ensures { (journal : List Entry) → IsIndexOf self.now journal
            → result ≡ models.current_run model journal }
    {
        self.model(model).current
    }

    /// How many models were loaded.
    pub fn loaded_count(&self) -> u32
        ensures { (journal : List Entry) → IsIndexOf self.now journal
            → result ≡ models.loaded_count journal }
    {
        self.loads
    }

    /// The place of the entry by which the last image of this name was made.
    pub fn image_of(&self, file: &Text) -> Option<Place>
        ensures { (journal : List Entry) → IsIndexOf self.now journal
            → option_map (λ place. place.0) result ≡ last_place (makes_image file.now) journal }
    {
        match self.images.place(file) {
            Some(place) => Some(Place(place)),
            None => None,
        }
    }

    /// The runs that there are, run 0 included.
    pub fn run_count(&self) -> u32
        ensures { (journal : List Entry) → IsIndexOf self.now journal
            → length journal < 2 ^ 31 → result ≡ entries.run_count journal }
    {
        self.started.saturating_add(1)
    }

    /// How many runs are live.
    pub fn live_count(&self) -> usize
        ensures { (journal : List Entry) → IsIndexOf self.now journal
            → result ≡ length (models.live_runs journal) }
    {
        self.live
    }

    /// How the run ended, where it has.
    pub fn finish_of(&self, run: u32) -> Option<End>
        ensures { (journal : List Entry) → IsIndexOf self.now journal
            → result ≡ runs.finish_of run journal }
    {
        self.run(run).end
    }

    /// The run has ended.
    pub fn is_finished(&self, run: u32) -> bool
        ensures { (journal : List Entry) → IsIndexOf self.now journal
            → result ≡ entries.is_finished run journal }
    {
        self.run(run).end.is_some()
    }

    /// The run was started and has not ended.
    pub fn is_live(&self, run: u32) -> bool
        ensures { (journal : List Entry) → IsIndexOf self.now journal
            → result ≡ models.is_live run journal }
    {
        self.is_going(run)
    }

    /// The run is to stop.
    pub fn is_asked(&self, run: u32) -> bool
        ensures { (journal : List Entry) → IsIndexOf self.now journal
            → result ≡ models.is_asked run journal }
    {
        self.is_finished(0) || self.run(run).asked
    }

    /// The place, in the list of files, of the run's source.
    pub fn source_of(&self, run: u32) -> Option<u32>
        ensures { (journal : List Entry) → IsIndexOf self.now journal
            → result ≡ runs.source_of run journal }
    {
        if run == 0 {
            return Some(0);
        }
        self.run(run).source
    }

    /// The place of the entry that started the run.
    pub fn start_of(&self, run: u32) -> Option<Place>
        ensures { (journal : List Entry) → IsIndexOf self.now journal
            → option_map (λ place. place.0) result ≡ last_place (starts_run run) journal }
    {
        match self.run(run).start {
            Some(place) => Some(Place(place)),
            None => None,
        }
    }

    /// The run was told that it is to end: it may only finish.
    pub fn is_over(&self, run: u32) -> bool
        ensures { (journal : List Entry) → IsIndexOf self.now journal → result
            ≡ fitting.is_over (fitting.exchange_of run journal) }
    {
        self.run(run).over
    }

    /// The live run that the lane holds.
    pub fn held_run(&self, lane: u32) -> Option<u32>
        ensures { (journal : List Entry) → IsIndexOf self.now journal → result
            ≡ fitting.held_run (entries.own_entries lane journal) }
    {
        self.lane(lane).held
    }

    /// The lane was told that the job is done.
    pub fn was_done(&self, lane: u32) -> bool
        ensures { (journal : List Entry) → IsIndexOf self.now journal → result
            ≡ fitting.was_done (entries.own_entries lane journal) }
    {
        self.lane(lane).done
    }

    /// A lane was given the run.
    pub fn is_claimed(&self, run: u32) -> bool
        ensures { (journal : List Entry) → IsIndexOf self.now journal
            → GivesInOrder journal → result ≡ entries.is_claimed run journal }
    {
        run < self.claimed
    }

    /// The least run that no lane was given.
    pub fn unclaimed(&self) -> Option<u32>
        ensures { (journal : List Entry) → IsIndexOf self.now journal
            → GivesInOrder journal → result ≡ entries.unclaimed_run journal }
    {
        let claimed = self.claimed;
        let started = self.started;
        if claimed <= started {
            Some(claimed)
        } else {
            None
        }
    }

    /// The job was ended before its time.
    pub fn has_quit(&self) -> bool
        ensures { (journal : List Entry) → IsIndexOf self.now journal
            → result ≡ entries.has_quit journal }
    {
        self.quit
    }
}

/// The number of a run's status, by its end if it has one.
fn run_status(end: Option<End>) -> i32
    ensures { result ≡ status_by end }
{
    match end {
        None => 2,
        Some(End::Code(_)) => 3,
        Some(End::Fault(_)) => 4,
        Some(End::Spent) => 5,
        Some(End::Stopped) => 6,
        Some(End::NoMemory) => 7,
    }
}
