//! Which calls a lane may make.
ghost use Rattle.std.specs.Prelude.{◌≡◌, ◌&&◌, ℕ, nat_eq};
ghost use Rattle.job_calls.specs.Entries.{is_run, own_entries};
ghost use Rattle.job_calls.specs.Runs.{opening};
ghost use Rattle.job_calls.specs.Fitting as fitting;
ghost use Rattle.job_calls.specs.Fitting.{exchange_of};

use crate::entry_tests::{is_claim, is_done, is_finish, is_last, is_quit, is_run};
use crate::files::lanes_of;
use crate::pipes::{lets_go, opened_session};
use job_calls::{Call, Entry, Reply, Way};
use mos_text::Text;

fn held_after(held: Option<u32>, call: &Call, reply: &Reply) -> Option<u32>
    ensures { result ≡ fitting.held_after held call.now reply.now }
{
    match (call, reply) {
        (Call::Claim, Reply::Claimed { run, .. }) => Some(*run),
        (Call::Finish(_), _) => None,
        _ => held,
    }
}

/// The live run that the lane holds.
fn held_run(lane: u32, journal: &[Entry]) -> Option<u32>
    ensures { result ≡ fitting.held_run (own_entries lane journal.now) }
{
    journal
        .iter()
        .filter(|e| e.lane == lane)
        .fold(None, |held, e| held_after(held, &e.call, &e.reply))
}

fn was_done(lane: u32, journal: &[Entry]) -> bool
    ensures { result ≡ fitting.was_done (own_entries lane journal.now) }
{
    journal
        .iter()
        .filter(|e| e.lane == lane)
        .any(|e| is_done(&e.reply))
}

/// The entry is of this run and lane.
fn is_of(run: u32, lane: u32, entry: &Entry) -> bool
    ensures { result ≡ (nat_eq entry.now.lane lane && is_run run entry.now.run) }
{
    entry.lane == lane && is_run(run, entry.run)
}

/// The run of this lane may only finish.
fn is_over(run: u32, lane: u32, journal: &[Entry]) -> bool
    ensures { result ≡ fitting.is_over (exchange_of run (own_entries lane journal.now)) }
{
    journal
        .iter()
        .filter(|e| is_of(run, lane, e))
        .any(|e| is_last(&e.reply))
}

/// A run that held this end of the pipe, or did not, holds it after one more call.
fn holds_after(way: Way, name: &Text, held: bool, call: &Call, reply: &Reply) -> bool
    ensures { result ≡ fitting.holds_after way name.now held (call.now, reply.now) }
{
    opened_session(way, name, call, reply).is_some() || (held && !lets_go(name, call, reply))
}

/// The run of this lane holds this end of the pipe.
fn holds(way: Way, name: &Text, run: u32, lane: u32, journal: &[Entry]) -> bool
    ensures { result ≡ fitting.holds way name.now (exchange_of run (own_entries lane journal.now)) }
{
    journal
        .iter()
        .filter(|e| is_of(run, lane, e))
        .fold(false, |held, e| {
            holds_after(way, name, held, &e.call, &e.reply)
        })
}

/// The run holds the end of a pipe that its call wants.
fn ends_fit(run: u32, lane: u32, journal: &[Entry], call: &Call) -> bool
    ensures { result ≡ fitting.ends_fit (exchange_of run (own_entries lane journal.now)) call.now }
{
    match call {
        Call::PipePut { name, .. } => holds(Way::Writes, name, run, lane, journal),
        Call::PipeTake { name } => holds(Way::Reads, name, run, lane, journal),
        Call::PipeClose { name } => {
            holds(Way::Reads, name, run, lane, journal)
                || holds(Way::Writes, name, run, lane, journal)
        }
        Call::Open { .. } => true,
        Call::Claim => true,
        Call::Quit => true,
        Call::Finish(_) => true,
        Call::Compile { .. } => true,
        Call::Load { .. } => true,
        Call::Run { .. } => true,
        Call::Wait => true,
        Call::Next => true,
        Call::Peek => true,
        Call::Drop => true,
        Call::IsEmpty => true,
        Call::Send { .. } => true,
        Call::Status { .. } => true,
        Call::ExitCode { .. } => true,
        Call::Stop { .. } => true,
        Call::Unload { .. } => true,
        Call::Read { .. } => true,
        Call::Write { .. } => true,
        Call::PipeOpen { .. } => true,
    }
}

fn is_for_lane(call: &Call) -> bool
    ensures { result ≡ fitting.is_for_lane call.now }
{
    matches!(call, Call::Open { .. } | Call::Claim | Call::Quit)
}

fn run_fits(lane: u32, journal: &[Entry], run: u32, call: &Call) -> bool
    ensures { result ≡ fitting.run_fits (own_entries lane journal.now) run call.now }
{
    is_run(run, held_run(lane, journal))
        && (is_finish(call) || (!is_over(run, lane, journal) && ends_fit(run, lane, journal, call)))
}

fn may_claim(lane: u32, journal: &[Entry]) -> bool
    ensures { result ≡ fitting.may_claim (own_entries lane journal.now) }
{
    held_run(lane, journal).is_none() && !was_done(lane, journal)
}

fn call_fits(lane: u32, journal: &[Entry], run: Option<u32>, call: &Call) -> bool
    ensures { result ≡ fitting.call_fits (own_entries lane journal.now) run call.now }
{
    match run {
        None => is_quit(call) || (is_claim(call) && may_claim(lane, journal)),
        Some(run) => !is_for_lane(call) && run_fits(lane, journal, run, call),
    }
}

/// The lane may make this call, for itself or for the run.
pub(crate) fn fits(journal: &[Entry], lane: u32, run: Option<u32>, call: &Call) -> bool
    ensures { result
        ≡ fitting.fits (opening journal.now) (own_entries lane journal.now) lane run call.now }
{
    lane < lanes_of(journal) && call_fits(lane, journal, run, call)
}
