//! Tests of one call, one reply or one entry.
ghost use Rattle.std.specs.Prelude.{◌≡◌, ℕ};
ghost use Rattle.job_calls.specs.Entries as entries;

use job_calls::{Call, Reply};

/// The caller is this run.
pub(crate) fn is_run(run_number: u32, run: Option<u32>) -> bool
    ensures { result ≡ entries.is_run run_number run }
{
    match run {
        None => false,
        Some(run) => run == run_number,
    }
}

pub(crate) fn is_quit(call: &Call) -> bool
    ensures { result ≡ entries.is_quit call.now }
{
    matches!(call, Call::Quit)
}

pub(crate) fn is_claim(call: &Call) -> bool
    ensures { result ≡ entries.is_claim call.now }
{
    matches!(call, Call::Claim)
}

pub(crate) fn is_finish(call: &Call) -> bool
    ensures { result ≡ entries.is_finish call.now }
{
    matches!(call, Call::Finish(_))
}

pub(crate) fn is_started(reply: &Reply) -> bool
    ensures { result ≡ entries.is_started reply.now }
{
    matches!(reply, Reply::Started { .. })
}

/// The lane was given this run.
pub(crate) fn claims(run_number: u32, reply: &Reply) -> bool
    ensures { result ≡ entries.claims run_number reply.now }
{
    match reply {
        Reply::Claimed { run, .. } => *run == run_number,
        _ => false,
    }
}

pub(crate) fn is_done(reply: &Reply) -> bool
    ensures { result ≡ entries.is_done reply.now }
{
    matches!(reply, Reply::Done)
}

/// The run calls nothing any more but its end.
pub(crate) fn is_last(reply: &Reply) -> bool
    ensures { result ≡ entries.is_last reply.now }
{
    matches!(reply, Reply::Halt | Reply::Fault(_))
}
