//! What an entry tells of runs by what the table says of models.
ghost use Rattle.std.specs.Prelude.{◌≡◌, ◌<◌, ◌+◌, ◌^◌, ◌&&◌, ℕ, Some, IfSome, length};
ghost use Rattle.job_calls.specs.Entries.{is_run};
ghost use Rattle.model_table.specs.Tables as tables;
ghost use Rattle.model_table.specs.Tables.{model_at, run_at, lane_at, is_live_in};
ghost use Rattle.model_table.specs.Steps.{is_started_in, source_in};

use crate::entries::is_started;
use crate::lane::Lane;
use crate::model::Model;
use crate::run::Run;
use crate::table::ModelTable;
use growing_lists::at;
use job_calls::{Call, Entry, Reply};

impl ModelTable {
    /// What the table tells of the model.
    pub(crate) fn model(&self, model: u32) -> Model
        ensures { result ≡ model_at self.now model }
    {
        at(&self.models, model, Model::UNKNOWN)
    }

    /// What the table tells of the run.
    pub(crate) fn run(&self, run: u32) -> Run
        ensures { result ≡ run_at self.now run }
    {
        at(&self.runs, run, Run::UNKNOWN)
    }

    /// What the table tells of the lane.
    pub(crate) fn lane(&self, lane: u32) -> Lane
        ensures { result ≡ lane_at self.now lane }
    {
        at(&self.lanes, lane, Lane::UNKNOWN)
    }

    /// The run was started and has not ended.
    pub(crate) fn is_going(&self, run: u32) -> bool
        ensures { result ≡ is_live_in self.now run }
    {
        run <= self.started && self.run(run).end.is_none()
    }

    /// The run that the entry starts, and the source of its model.
    pub(crate) fn run_started(&self, entry: &Entry) -> Option<(u32, Option<u32>)>
        ensures started { (k : ℕ) → is_started_in result k ≡ tables.starts_run k entry.now }
        ensures source { (k : ℕ) → source_in result k ≡ tables.source_told self.now k entry.now }
        ensures told { IfSome result
            (λ t. tables.run_told entry.now.run entry.now.call entry.now.reply ≡ Some t.0) }
    {
        match (&entry.call, &entry.reply) {
            (Call::Run { model, .. }, Reply::Started { run }) => Some((
                *run,
                self.model(*model).source,
            )),
            _ => None,
        }
    }

    /// The run that the entry asks to stop.
    pub(crate) fn run_asked(&self, entry: &Entry) -> Option<u32>
        ensures asked { (k : ℕ) → is_run k result ≡ tables.asks_in self.now k entry.now }
        ensures within { IfSome result (λ k. k < length self.now.runs.items) }
    {
        match (&entry.call, &entry.reply) {
            (Call::Stop { model }, Reply::Unit) => self.going(self.model(*model).current),
            _ => None,
        }
    }

    /// The run, where there is one and it is live.
    fn going(&self, run: Option<u32>) -> Option<u32>
        ensures going { (k : ℕ) → is_run k result ≡ (is_run k run && is_live_in self.now k) }
        ensures within { IfSome result (λ k. k < length self.now.runs.items) }
    {
        match run {
            Some(number) if self.is_going(number) => run,
            _ => None,
        }
    }

    /// The entry ends a run that is live.
    pub(crate) fn is_ending(&self, entry: &Entry) -> bool
        ensures { result ≡ tables.ends_in self.now entry.now }
    {
        match (entry.run, &entry.call) {
            (Some(run), Call::Finish(_)) => self.is_going(run),
            _ => false,
        }
    }

    /// The entry, of which the table was told, starts a run that has not ended before.
    pub(crate) fn is_starting(&self, entry: &Entry) -> bool
        ensures { self.now.started + 1 < 2 ^ 32 → result ≡ tables.starts_in self.now entry.now }
    {
        is_started(entry) && self.run(self.started.saturating_add(1)).end.is_none()
    }
}
