//! When runs start and finish.
ghost use Rattle.std.specs.Prelude.{◌≡◌, ◌&&◌, ℕ};
ghost use Rattle.job_calls.specs.Entries as entries;
ghost use Rattle.mempipe.specs.Index as index;

use job_calls::{Call, Entry, Reply};

/// The run that the entry starts, or that finishes by it.
pub(crate) fn run_told(entry: &Entry) -> Option<u32>
    ensures { result ≡ index.run_told entry.now.run entry.now.call entry.now.reply }
{
    match (entry.run, &entry.call, &entry.reply) {
        (Some(run), Call::Finish(_), _) => Some(run),
        (_, Call::Run { .. }, Reply::Started { run }) => Some(*run),
        _ => None,
    }
}

/// The run that finishes by the entry.
pub(crate) fn run_finished(entry: &Entry) -> Option<u32>
    ensures { (k : ℕ) → entries.is_run k result
        ≡ (entries.is_run k entry.now.run && entries.is_finish entry.now.call) }
{
    match (entry.run, &entry.call) {
        (Some(run), Call::Finish(_)) => Some(run),
        _ => None,
    }
}

/// The caller is this run.
pub(crate) fn is_run(number: u32, run: Option<u32>) -> bool
    ensures { result ≡ entries.is_run number run }
{
    match run {
        Some(run) => run == number,
        None => false,
    }
}
