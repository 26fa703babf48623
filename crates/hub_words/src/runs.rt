//! Where the runs of a journal come from.
ghost use Rattle.std.specs.Prelude.{◌≡◌, ℕ, ◌<◌, ◌^◌, length, option_map, option_copied};
ghost use Rattle.job_calls.specs.Runs as runs;
ghost use Rattle.job_calls.specs.Moments.{Moment, moments};

use crate::given::last_given;
use job_calls::{Call, Entry, Reply};
use mos_text::Text;

/// The model of the call that starts this run.
fn model_started(run_number: u32, entry: &Entry) -> Option<u32>
    ensures { result ≡ option_map (λ start. start.model) (runs.start_of_run run_number entry.now) }
{
    match (&entry.call, &entry.reply) {
        (Call::Run { model, .. }, Reply::Started { run }) => (*run == run_number).then_some(*model),
        _ => None,
    }
}

fn loaded_source(model_number: u32, reply: &Reply) -> Option<u32>
    ensures { result ≡ runs.loaded_source model_number reply.now }
{
    match reply {
        Reply::Loaded { model, source } => (*model == model_number).then_some(*source),
        _ => None,
    }
}

/// The source that was last loaded as this model.
fn source_of_model(model_number: u32, journal: &[Entry]) -> Option<u32>
    ensures { result ≡ runs.source_of_model model_number journal.now }
{
    last_given(journal, |e| loaded_source(model_number, &e.reply))
}

/// Where this entry starts this run: the source of its model, if that was loaded before.
fn source_started(run_number: u32, before: &[Entry], entry: &Entry) -> Option<Option<u32>>
    ensures { result ≡ runs.source_started run_number
        (record { before = before.now; entry = entry.now }) }
{
    match model_started(run_number, entry) {
        None => None,
        Some(model) => Some(source_of_model(model, before)),
    }
}

/// What the last start of this run says of its source, if there is a start.
fn source_of_start(run_number: u32, journal: &[Entry]) -> Option<Option<u32>>
    ensures { result ≡ runs.last_given (runs.source_started run_number) (moments journal.now) }
{
    let mut found = None;
    for (i, e) in journal.iter().enumerate() {
        found = source_started(run_number, &journal[..i], e).or(found);
    }
    found
}

/// The place, in the list of files, of the source of this run.
pub(crate) fn source_of(run_number: u32, journal: &[Entry]) -> Option<u32>
    ensures { result ≡ runs.source_of run_number journal.now }
{
    if run_number > 0 {
        return source_of_start(run_number, journal).unwrap_or(None);
    }
    Some(0)
}

/// The parameter text that this entry starts this run with.
pub fn params_started(run_number: u32, entry: &Entry) -> Option<&Text>
    ensures { option_copied result ≡ option_map
        (λ start. start.params) (runs.start_of_run run_number entry.now) }
{
    match (&entry.call, &entry.reply) {
        (Call::Run { params, .. }, Reply::Started { run }) if *run == run_number => Some(params),
        _ => None,
    }
}

/// The parameter text that the job is opened with.
pub fn params_opened(call: &Call) -> Option<&Text>
    ensures { option_copied result ≡ option_map (λ o. o.params) (runs.opening_of call.now) }
{
    match call {
        Call::Open { params, .. } => Some(params),
        _ => None,
    }
}

/// The parameter text that this run was last started with.
fn params_of_start(run_number: u32, journal: &[Entry]) -> Option<&Text>
    ensures { option_copied result ≡ runs.last_given (λ e. option_map
        (λ start. start.params) (runs.start_of_run run_number e)) journal.now }
{
    let mut found = None;
    for e in journal {
        found = params_started(run_number, e).or(found);
    }
    found
}

/// The parameter text of this run.
pub(crate) fn params_of(run_number: u32, journal: &[Entry]) -> Option<&Text>
    ensures { option_copied result ≡ runs.params_of run_number journal.now }
{
    if run_number > 0 {
        return params_of_start(run_number, journal);
    }
    match journal {
        [] => None,
        [e, ..] => params_opened(&e.call),
    }
}
