//! Models and their runs, as the journal has them.
ghost use Rattle.std.specs.Prelude.{◌≡◌, ℕ, ◌<◌, ◌^◌, length, if◌then◌else◌, None, option_and_then, option_copied};
ghost use Rattle.job_calls.specs.Entries as entries;
ghost use Rattle.job_calls.specs.Models as models;
ghost use Rattle.job_calls.specs.Moments.{Moment, moments};
ghost use Rattle.std.specs.List.{list_any};
ghost use Rattle.job_calls.specs.Runs as runs;
ghost use Rattle.job_calls.specs.Files.{files_of};

use crate::entry_tests::is_run;
use crate::files::file_at;
use crate::given::last_given;
use crate::jobs::{is_finished, run_count};
use job_calls::{Call, End, Entry, Reply};
use mos_text::Text;

/// The source that the call compiled to the file, if its image was made.
pub fn compiled_to<'a>(file: &Text, call: &'a Call, reply: &Reply) -> Option<&'a Text>
    ensures { option_copied result ≡ models.compiled_to file.now call.now reply.now }
{
    match (call, reply) {
        (Call::Compile { src, dst }, Reply::Code(code)) => {
            if *code == 0 && dst.as_bytes() == file.as_bytes() {
                Some(src)
            } else {
                None
            }
        }
        _ => None,
    }
}

/// The source that was last compiled to the file.
fn compiled_from<'a>(file: &Text, journal: &'a [Entry]) -> Option<&'a Text>
    ensures { option_copied result ≡ models.compiled_from file.now journal.now }
{
    let mut found = None;
    for e in journal {
        found = compiled_to(file, &e.call, &e.reply).or(found);
    }
    found
}

/// The place, in the list of files, of the source that was last compiled to the file.
pub(crate) fn image_source(file: &Text, journal: &[Entry]) -> Option<u32>
    requires { length (files_of journal.now) < 2 ^ 31 }
    ensures { result ≡ models.image_source file.now journal.now }
{
    match compiled_from(file, journal) {
        None => None,
        Some(src) => file_at(src, journal),
    }
}

fn is_loading(reply: &Reply) -> bool
    ensures { result ≡ models.is_loading reply.now }
{
    matches!(reply, Reply::Loaded { .. })
}

fn load_count(journal: &[Entry]) -> usize
    ensures { result ≡ models.loaded_count journal.now }
{
    journal.iter().filter(|e| is_loading(&e.reply)).count()
}

/// How many models were loaded.
pub(crate) fn loaded_count(journal: &[Entry]) -> u32
    requires { length journal.now < 2 ^ 31 }
    ensures count { result ≡ models.loaded_count journal.now }
    ensures small { result < 2 ^ 31 }
{
    let many = load_count(journal);
    many as u32
}

/// Whether the model is loaded from this entry on, where the entry says so.
fn loads(model_number: u32, call: &Call, reply: &Reply) -> Option<bool>
    ensures { result ≡ models.loads model_number call.now reply.now }
{
    match (call, reply) {
        (_, Reply::Loaded { model, .. }) => (*model == model_number).then_some(true),
        (Call::Unload { model }, Reply::Unit) => (*model == model_number).then_some(false),
        _ => None,
    }
}

fn last_load(model_number: u32, journal: &[Entry]) -> Option<bool>
    ensures { result ≡ runs.last_given (λ e. models.loads model_number e.call e.reply) journal.now }
{
    last_given(journal, |e| loads(model_number, &e.call, &e.reply))
}

pub(crate) fn is_loaded(model_number: u32, journal: &[Entry]) -> bool
    ensures { result ≡ models.is_loaded model_number journal.now }
{
    last_load(model_number, journal).unwrap_or(false)
}

fn run_of_model(model_number: u32, entry: &Entry) -> Option<u32>
    ensures { result ≡ models.run_of_model model_number entry.now }
{
    match (&entry.call, &entry.reply) {
        (Call::Run { model, .. }, Reply::Started { run }) => (*model == model_number).then_some(
            *run,
        ),
        _ => None,
    }
}

/// The last run of the model.
pub(crate) fn current_run(model_number: u32, journal: &[Entry]) -> Option<u32>
    ensures { result ≡ models.current_run model_number journal.now }
{
    last_given(journal, |e| run_of_model(model_number, e))
}

/// The run that starts this run by this entry.
fn started_from(run_number: u32, entry: &Entry) -> Option<u32>
    ensures { result ≡ option_and_then (λ start. start.parent)
        (runs.start_of_run run_number entry.now) }
{
    match (&entry.call, &entry.reply) {
        (Call::Run { .. }, Reply::Started { run }) if *run == run_number => entry.run,
        _ => None,
    }
}

/// The run that started this run.
pub(crate) fn parent_of(run_number: u32, journal: &[Entry]) -> Option<u32>
    ensures { result ≡ models.parent_of run_number journal.now }
{
    last_given(journal, |e| started_from(run_number, e))
}

pub(crate) fn is_live(run_number: u32, journal: &[Entry]) -> bool
    requires { length journal.now < 2 ^ 31 }
    ensures { result ≡ models.is_live run_number journal.now }
{
    run_number < run_count(journal) && !is_finished(run_number, journal)
}

/// How many runs are live.
pub(crate) fn live_count(journal: &[Entry]) -> usize
    requires { length journal.now < 2 ^ 31 }
    ensures { result ≡ length (models.live_runs journal.now) }
{
    let many = run_count(journal);
    (0..many)
        .filter(|run_number| is_live(*run_number, journal))
        .count()
}

fn stopped_model(call: &Call, reply: &Reply) -> Option<u32>
    ensures { result ≡ models.stopped_model call.now reply.now }
{
    match (call, reply) {
        (Call::Stop { model }, Reply::Unit) => Some(*model),
        _ => None,
    }
}

/// The entry asks this run to stop, by the entries before it.
fn asks(run_number: u32, before: &[Entry], entry: &Entry) -> bool
    requires { length before.now < 2 ^ 31 }
    ensures { result ≡ models.asks run_number (record { before = before.now; entry = entry.now }) }
{
    match stopped_model(&entry.call, &entry.reply) {
        None => false,
        Some(model) => is_run(run_number, current_run(model, before))
            && is_live(run_number, before),
    }
}

/// Some entry asks this run to stop.
fn was_asked(run_number: u32, journal: &[Entry]) -> bool
    requires { length journal.now < 2 ^ 31 }
    ensures { result ≡ list_any (models.asks run_number) (moments journal.now) }
{
    for (i, e) in journal.iter().enumerate() {
        if asks(run_number, &journal[..i], e) {
            return true;
        }
    }
    false
}

/// The run is to stop.
pub(crate) fn is_asked(run_number: u32, journal: &[Entry]) -> bool
    requires { length journal.now < 2 ^ 31 }
    ensures { result ≡ models.is_asked run_number journal.now }
{
    is_finished(0, journal) || was_asked(run_number, journal)
}

fn finish_by(run_number: u32, entry: &Entry) -> Option<End>
    ensures { result ≡ (if entries.is_run run_number entry.now.run then runs.finish entry.now.call
        else None) }
{
    match &entry.call {
        Call::Finish(end) if is_run(run_number, entry.run) => Some(*end),
        _ => None,
    }
}

/// How this run ended, where it has.
pub(crate) fn finish_of(run_number: u32, journal: &[Entry]) -> Option<End>
    ensures { result ≡ runs.finish_of run_number journal.now }
{
    last_given(journal, |e| finish_by(run_number, e))
}
