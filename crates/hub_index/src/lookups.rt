//! What the hub's answers look up, found by the indexes.
use crate::journal::Journal;
use crate::texts::{first_params, params_at, source_at};
use hub_words::{Event, Lookups, event_at, is_full_with, written_at};
use job_calls::{Call, End, Way};
use job_laws::laws;
use mos_text::{NoMemory, Place, SharedBlob, Text};
use std::alloc::Global;

impl Lookups for Journal {
    ghost use Rattle.hub_index.specs.Journals.{entries_of};

    ghost list = { λ journal. entries_of journal };

    fn count(&self) -> usize {
        self.entries.len()
    }

    fn fits(&self, lane: u32, run: Option<u32>, call: &Call) -> bool {
        lane < self.entries.lanes() && self.index.call_fits(lane, run, call)
    }

    fn is_full(&self, call: &Call) -> bool {
        is_full_with(self.entries.len(), self.index.left, call)
    }

    fn has_quit(&self) -> bool {
        self.index.models.has_quit()
    }

    fn lanes(&self) -> u32 {
        self.entries.lanes()
    }

    fn run_count(&self) -> u32 {
        self.index.models.run_count()
    }

    fn live_count(&self) -> usize {
        self.index.models.live_count()
    }

    fn is_claimed(&self, run: u32) -> bool {
        laws::given_in_order();
        self.index.models.is_claimed(run)
    }

    fn is_finished(&self, run: u32) -> bool {
        self.index.models.is_finished(run)
    }

    fn is_live(&self, run: u32) -> bool {
        self.index.models.is_live(run)
    }

    fn is_asked(&self, run: u32) -> bool {
        self.index.models.is_asked(run)
    }

    fn finish_of(&self, run: u32) -> Option<End> {
        self.index.models.finish_of(run)
    }

    fn unclaimed(&self) -> Option<u32> {
        laws::given_in_order();
        self.index.models.unclaimed()
    }

    fn source_of(&self, run: u32) -> Option<u32> {
        self.index.models.source_of(run)
    }

    fn params_of(&self, run: u32) -> Option<&Text> {
        if run == 0 {
            return first_params(&self.entries);
        }
        params_at(&self.entries, run, self.index.models.start_of(run))
    }

    fn parent_of(&self, run: u32) -> Option<u32> {
        self.index.events.parent_of(run)
    }

    fn loaded_count(&self) -> u32 {
        self.index.models.loaded_count()
    }

    fn is_loaded(&self, model: u32) -> bool {
        self.index.models.is_loaded(model)
    }

    fn current_run(&self, model: u32) -> Option<u32> {
        self.index.models.current_run(model)
    }

    fn image_source(&self, file: &Text) -> Option<u32> {
        source_at(&self.entries, file, self.index.models.image_of(file))
    }

    fn code_of(&self, name: &Text) -> u8 {
        self.entries.code_of(name)
    }

    fn data_of(&self, name: &Text) -> Option<&SharedBlob> {
        self.entries.data_of(name)
    }

    fn last_written(&self, name: &Text) -> Option<(u32, &SharedBlob)> {
        match self.index.blocks.last_of(name) {
            None => None,
            Some(Place(place)) => written_at(place as usize, &self.entries),
        }
    }

    fn first_event(&self, run: u32) -> Option<u32> {
        match self.index.events.first(run) {
            None => None,
            Some(Place(place)) => Some(place),
        }
    }

    fn front(&self, run: u32) -> Option<Event> {
        match self.index.events.first(run) {
            None => None,
            Some(Place(place)) => event_at(place, &self.entries),
        }
    }

    fn queue_length(&self, run: u32) -> usize {
        self.index.events.queue_length(run)
    }

    fn holder(&self, way: Way, name: &Text) -> Option<u32> {
        self.index.pipes.holder(way, name)
    }

    fn session(&self, name: &Text) -> Option<u32> {
        match self.index.pipes.session(name) {
            None => None,
            Some(Place(place)) => Some(place),
        }
    }

    fn had_writer(&self, name: &Text) -> bool {
        self.index.pipes.had_writer(name)
    }

    fn is_joined(&self, name: &Text) -> bool {
        self.index.pipes.is_joined(name)
    }

    fn is_ended(&self, name: &Text) -> bool {
        self.index.pipes.is_ended(name)
    }

    fn untaken(&self, alloc: Global, name: &Text) -> Result<Vec<u8>, NoMemory> {
        match self.index.pipes.untaken_bytes(alloc, name)? {
            Some(bytes) => Ok(bytes),
            None => self.entries.untaken(alloc, name),
        }
    }
}
