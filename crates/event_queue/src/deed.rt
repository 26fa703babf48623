//! What an entry does to runs and their queues.
ghost use Rattle.std.specs.Prelude.{◌≡◌, ◌&&◌, ℕ};
ghost use Rattle.job_calls.specs.Entries.{is_run};
ghost use Rattle.job_calls.specs.Events.{is_took};
ghost use Rattle.event_queue.specs.Deeds.{deed_of};

use job_calls::{Call, Entry, Reply};

/// What an entry does to runs and their queues, beside that it may take an event.
#[derive(Clone, Copy, Drop)]
pub(crate) enum Deed {
    /// The run was started by the caller.
    Starts { run: u32, caller: u32 },
    /// An event was sent to the run.
    Sends { to: u32 },
    /// The run has ended.
    Ends { run: u32 },
    Nothing,
}

/// What the entry does.
pub(crate) fn deed_of(entry: &Entry) -> Deed
    ensures { result ≡ deed_of entry.now.run entry.now.call entry.now.reply }
{
    match (entry.run, &entry.call, &entry.reply) {
        (_, Call::Send { .. }, Reply::Queued { run }) => Deed::Sends { to: *run },
        (Some(caller), Call::Run { .. }, Reply::Started { run }) => Deed::Starts {
            run: *run,
            caller,
        },
        (Some(run), Call::Finish(_), _) => Deed::Ends { run },
        _ => Deed::Nothing,
    }
}

/// The run that takes an event by the entry.
pub(crate) fn taker(entry: &Entry) -> Option<u32>
    ensures { (k : ℕ) → is_run k result ≡ (is_run k entry.now.run && is_took entry.now.reply) }
{
    match (entry.run, &entry.reply) {
        (Some(run), Reply::Took { .. }) => Some(run),
        _ => None,
    }
}
