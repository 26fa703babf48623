//! What an entry tells of models and runs.
ghost use Rattle.std.specs.Prelude.{◌≡◌, ◌&&◌, ℕ, List, Some, IfSome, MatchOption, false};
ghost use Rattle.std.specs.Str.{bytes_eq};
ghost use Rattle.job_calls.specs.Entries.{is_run, is_last, is_started, is_quit};
ghost use Rattle.job_calls.specs.Models.{is_loading};
ghost use Rattle.model_table.specs.Tables as tables;
ghost use Rattle.model_table.specs.Steps.{end_in};
ghost use Rattle.model_table.specs.Index.{gives_run, makes_image};

use job_calls::{Call, End, Entry, Reply};
use mos_text::Text;

/// The model that is loaded, or of which a run is started.
pub(crate) fn model_told(entry: &Entry) -> Option<u32>
    ensures { result ≡ tables.model_told entry.now.call entry.now.reply }
{
    match (&entry.call, &entry.reply) {
        (_, Reply::Loaded { model, .. }) => Some(*model),
        (Call::Run { model, .. }, Reply::Started { .. }) => Some(*model),
        _ => None,
    }
}

/// The run that is started, or that ends.
pub(crate) fn run_told(entry: &Entry) -> Option<u32>
    ensures { result ≡ tables.run_told entry.now.run entry.now.call entry.now.reply }
{
    match (entry.run, &entry.call, &entry.reply) {
        (Some(run), Call::Finish(_), _) => Some(run),
        (_, Call::Run { .. }, Reply::Started { run }) => Some(*run),
        _ => None,
    }
}

/// The run that has ended, and how.
pub(crate) fn run_ended(entry: &Entry) -> Option<(u32, End)>
    ensures ended { (k : ℕ) → end_in result k ≡ tables.end_told k entry.now }
    ensures told { IfSome result (λ t. tables.run_told entry.now.run entry.now.call entry.now.reply
        ≡ Some t.0) }
{
    match (entry.run, &entry.call) {
        (Some(run), Call::Finish(end)) => Some((run, *end)),
        _ => None,
    }
}

/// The run that is answered that it is to end.
pub(crate) fn run_over(entry: &Entry) -> Option<u32>
    ensures over { (k : ℕ) → is_run k result ≡ (is_run k entry.now.run && is_last entry.now.reply) }
    ensures told { result ≡ tables.over_told entry.now.run entry.now.reply }
{
    match &entry.reply {
        Reply::Halt | Reply::Fault(_) => entry.run,
        _ => None,
    }
}

/// The lane that is given a run, or told that the job is done.
pub(crate) fn lane_told(entry: &Entry) -> Option<u32>
    ensures { result ≡ tables.lane_told entry.now.lane entry.now.reply }
{
    match &entry.reply {
        Reply::Claimed { .. } | Reply::Done => Some(entry.lane),
        _ => None,
    }
}

/// The name under which an image was made.
pub(crate) fn image_made(entry: &Entry) -> Option<&Text>
    ensures { MatchOption result ((file : List ℕ) → makes_image file entry.now ≡ false)
        (λ name. (file : List ℕ) → makes_image file entry.now ≡ bytes_eq name.now file) }
{
    match (&entry.call, &entry.reply) {
        (Call::Compile { dst, .. }, Reply::Code(0)) => Some(dst),
        _ => None,
    }
}

/// A model was loaded.
pub(crate) fn is_loading(entry: &Entry) -> bool
    ensures { result ≡ is_loading entry.now.reply }
{
    matches!(&entry.reply, Reply::Loaded { .. })
}

/// A run was started.
pub(crate) fn is_started(entry: &Entry) -> bool
    ensures { result ≡ is_started entry.now.reply }
{
    matches!(&entry.reply, Reply::Started { .. })
}

/// A lane was given a run.
pub(crate) fn gives_run(entry: &Entry) -> bool
    ensures { result ≡ gives_run entry.now.reply }
{
    matches!(&entry.reply, Reply::Claimed { .. })
}

/// The lane ends the job before its time.
pub(crate) fn is_quit(entry: &Entry) -> bool
    ensures { result ≡ is_quit entry.now.call }
{
    matches!(&entry.call, Call::Quit)
}
