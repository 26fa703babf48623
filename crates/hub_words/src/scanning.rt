//! A journal as a plain list: each word is found by scanning it.
ghost use Rattle.std.specs.Prelude.{List};

use crate::events::Event;
use crate::lookups::Lookups;
use crate::{blocks, events, files, fitting, jobs, models, pipes, runs, weights};
use job_calls::{Call, End, Entry, Way};
use mos_text::{NoMemory, SharedBlob, Text};
use std::alloc::Global;

impl Lookups for Vec<Entry> {
    ghost list = { λ entries. entries.items };

    fn count(&self) -> usize {
        self.len()
    }

    fn fits(&self, lane: u32, run: Option<u32>, call: &Call) -> bool {
        fitting::fits(self, lane, run, call)
    }

    fn is_full(&self, call: &Call) -> bool {
        weights::is_full(self, call)
    }

    fn has_quit(&self) -> bool {
        jobs::has_quit(self)
    }

    fn lanes(&self) -> u32 {
        files::lanes_of(self)
    }

    fn run_count(&self) -> u32 {
        jobs::run_count(self)
    }

    fn live_count(&self) -> usize {
        models::live_count(self)
    }

    fn is_claimed(&self, run: u32) -> bool {
        jobs::is_claimed(run, self)
    }

    fn is_finished(&self, run: u32) -> bool {
        jobs::is_finished(run, self)
    }

    fn is_live(&self, run: u32) -> bool {
        models::is_live(run, self)
    }

    fn is_asked(&self, run: u32) -> bool {
        models::is_asked(run, self)
    }

    fn finish_of(&self, run: u32) -> Option<End> {
        models::finish_of(run, self)
    }

    fn unclaimed(&self) -> Option<u32> {
        jobs::unclaimed(self)
    }

    fn source_of(&self, run: u32) -> Option<u32> {
        runs::source_of(run, self)
    }

    fn params_of(&self, run: u32) -> Option<&Text> {
        runs::params_of(run, self)
    }

    fn parent_of(&self, run: u32) -> Option<u32> {
        models::parent_of(run, self)
    }

    fn loaded_count(&self) -> u32 {
        models::loaded_count(self)
    }

    fn is_loaded(&self, model: u32) -> bool {
        models::is_loaded(model, self)
    }

    fn current_run(&self, model: u32) -> Option<u32> {
        models::current_run(model, self)
    }

    fn image_source(&self, file: &Text) -> Option<u32> {
        models::image_source(file, self)
    }

    fn code_of(&self, name: &Text) -> u8 {
        files::code_of(name, self)
    }

    fn data_of(&self, name: &Text) -> Option<&SharedBlob> {
        files::data_of(name, self)
    }

    fn last_written(&self, name: &Text) -> Option<(u32, &SharedBlob)> {
        blocks::last_written(name, self)
    }

    fn first_event(&self, run: u32) -> Option<u32> {
        events::first_event(run, self)
    }

    fn front(&self, run: u32) -> Option<Event> {
        events::front(run, self)
    }

    fn queue_length(&self, run: u32) -> usize {
        events::queue_length(run, self)
    }

    fn holder(&self, way: Way, name: &Text) -> Option<u32> {
        pipes::holder(way, name, self)
    }

    fn session(&self, name: &Text) -> Option<u32> {
        pipes::session(name, self)
    }

    fn had_writer(&self, name: &Text) -> bool {
        pipes::had_writer(name, self)
    }

    fn is_joined(&self, name: &Text) -> bool {
        pipes::is_joined(name, self)
    }

    fn is_ended(&self, name: &Text) -> bool {
        pipes::is_ended(name, self)
    }

    fn untaken(&self, alloc: Global, name: &Text) -> Result<Vec<u8>, NoMemory> {
        pipes::untaken(alloc, name, self)
    }
}
