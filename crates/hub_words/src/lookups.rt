//! What the hub's answers look up in a journal: each method gives one word on the list of its entries.
ghost use Rattle.std.specs.Prelude.{◌≡◌, ◌<◌, ◌^◌, ℕ, List, None, length, option_map, option_copied, IfOk, MatchOption};
ghost use Rattle.job_calls.specs.declared.entry.Entry.{Entry};
ghost use Rattle.job_calls.specs.Entries as entries;
ghost use Rattle.job_calls.specs.Runs as runs;
ghost use Rattle.job_calls.specs.Models as models;
ghost use Rattle.job_calls.specs.Files as files;
ghost use Rattle.job_calls.specs.Events as events;
ghost use Rattle.job_calls.specs.Blocks as blocks;
ghost use Rattle.job_calls.specs.Pipes as pipes;
ghost use Rattle.job_calls.specs.Answers as answers;
ghost use Rattle.job_calls.specs.Fitting as fitting;
ghost use Rattle.hub_words.specs.Fronts.{event_value, IsWritten};
ghost use Rattle.hub_words.specs.Small.{IsSmall};

use crate::events::Event;
use job_calls::{Call, End, Way};
use mos_text::{NoMemory, SharedBlob, Text};
use std::alloc::Global;

/// A journal in which the words that answers need can be looked up.
pub trait Lookups {
    ghost list: { Self → List Entry };

    /// How many entries there are.
    fn count(&self) -> usize
        ensures { result ≡ length (list self.now) };

    /// The lane may make the call, for itself or for the run.
    fn fits(&self, lane: u32, run: Option<u32>, call: &Call) -> bool
        ensures { result ≡ fitting.fits (runs.opening (list self.now))
            (entries.own_entries lane (list self.now)) lane run call.now };

    /// The journal takes no further call of a run, or none of this weight.
    fn is_full(&self, call: &Call) -> bool
        ensures { result ≡ answers.is_full (list self.now) call.now };

    /// The job was ended before its time.
    fn has_quit(&self) -> bool
        ensures { result ≡ entries.has_quit (list self.now) };

    /// The number of lanes that the job was opened with.
    fn lanes(&self) -> u32
        ensures { result ≡ files.lanes_of (list self.now) };

    /// The runs that there are, run 0 included.
    fn run_count(&self) -> u32
        requires { IsSmall (list self.now) }
        ensures { result ≡ entries.run_count (list self.now) };

    /// How many runs are live.
    fn live_count(&self) -> usize
        requires { IsSmall (list self.now) }
        ensures { result ≡ length (models.live_runs (list self.now)) };

    /// A lane was given the run.
    fn is_claimed(&self, run: u32) -> bool
        ensures { result ≡ entries.is_claimed run (list self.now) };

    /// The run has ended.
    fn is_finished(&self, run: u32) -> bool
        ensures { result ≡ entries.is_finished run (list self.now) };

    /// The run was started and has not ended.
    fn is_live(&self, run: u32) -> bool
        requires { IsSmall (list self.now) }
        ensures { result ≡ models.is_live run (list self.now) };

    /// The run is to stop.
    fn is_asked(&self, run: u32) -> bool
        requires { IsSmall (list self.now) }
        ensures { result ≡ models.is_asked run (list self.now) };

    /// How the run ended, where it has.
    fn finish_of(&self, run: u32) -> Option<End>
        ensures { result ≡ runs.finish_of run (list self.now) };

    /// The least run that no lane was given.
    fn unclaimed(&self) -> Option<u32>
        requires { IsSmall (list self.now) }
        ensures { result ≡ entries.unclaimed_run (list self.now) };

    /// The place, in the list of files, of the run's source.
    fn source_of(&self, run: u32) -> Option<u32>
        ensures { result ≡ runs.source_of run (list self.now) };

    /// The run's parameter text.
    fn params_of(&self, run: u32) -> Option<&Text>
        ensures { option_copied result ≡ runs.params_of run (list self.now) };

    /// The run that started this one.
    fn parent_of(&self, run: u32) -> Option<u32>
        ensures { result ≡ models.parent_of run (list self.now) };

    /// How many models were loaded.
    fn loaded_count(&self) -> u32
        requires { IsSmall (list self.now) }
        ensures count { result ≡ models.loaded_count (list self.now) }
        ensures small { result < 2 ^ 31 };

    /// The model was loaded, and not unloaded since.
    fn is_loaded(&self, model: u32) -> bool
        ensures { result ≡ models.is_loaded model (list self.now) };

    /// The last run of the model.
    fn current_run(&self, model: u32) -> Option<u32>
        ensures { result ≡ models.current_run model (list self.now) };

    /// The place, in the list of files, of the source that the file was last compiled from.
    fn image_source(&self, file: &Text) -> Option<u32>
        requires { IsSmall (list self.now) }
        ensures { result ≡ models.image_source file.now (list self.now) };

    /// The code of the listed source of this name; 1 where there is none.
    fn code_of(&self, name: &Text) -> u8
        ensures { result ≡ files.code_of name.now (list self.now) };

    /// The bytes of the listed data file of this name.
    fn data_of(&self, name: &Text) -> Option<&SharedBlob>
        ensures { option_copied result ≡ files.data_of name.now (list self.now) };

    /// What was last written under this name, and the place of the entry that wrote it.
    fn last_written(&self, name: &Text) -> Option<(u32, &SharedBlob)>
        requires { IsSmall (list self.now) }
        ensures { MatchOption result (blocks.last_written name.now (list self.now) ≡ None)
            (λ w. IsWritten (blocks.last_written name.now (list self.now)) w.0 w.1.now) };

    /// The place of the first event that the run has not taken.
    fn first_event(&self, run: u32) -> Option<u32>
        requires { IsSmall (list self.now) }
        ensures { result ≡ events.first_event run (list self.now) };

    /// The first event that the run has not taken.
    fn front(&self, run: u32) -> Option<Event>
        requires { IsSmall (list self.now) }
        ensures { option_map event_value result ≡ events.front run (list self.now) };

    /// How many events the run has not taken.
    fn queue_length(&self, run: u32) -> usize
        ensures { result ≡ length (events.queue run (list self.now)) };

    /// The run that holds this end of the pipe.
    fn holder(&self, way: Way, name: &Text) -> Option<u32>
        ensures { result ≡ pipes.holder way name.now (list self.now) };

    /// The place at which the last session of the pipe began.
    fn session(&self, name: &Text) -> Option<u32>
        requires { IsSmall (list self.now) }
        ensures { result ≡ pipes.session name.now (list self.now) };

    /// The last session of the pipe had its writer already.
    fn had_writer(&self, name: &Text) -> bool
        ensures { result ≡ pipes.had_writer name.now (list self.now) };

    /// The pipe's reader is the one that its writer was opened for.
    fn is_joined(&self, name: &Text) -> bool
        ensures { result ≡ pipes.is_joined name.now (list self.now) };

    /// The writer of the pipe's last session has closed.
    fn is_ended(&self, name: &Text) -> bool
        ensures { result ≡ pipes.is_ended name.now (list self.now) };

    /// The bytes of the pipe's last session that were put and not yet taken.
    fn untaken(&self, alloc: Global, name: &Text) -> Result<Vec<u8>, NoMemory>
        ensures { IfOk result
            (λ bytes. bytes.items ≡ pipes.untaken_bytes name.now (list self.now)) };
}
