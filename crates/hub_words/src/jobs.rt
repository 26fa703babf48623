//! The runs of a journal: how many there are, which were claimed, which have ended.
ghost use Rattle.std.specs.Prelude.{◌≡◌, ℕ, ◌<◌, ◌≤◌, ◌+◌, ◌^◌, length};
ghost use Rattle.job_calls.specs.Entries as entries;

use crate::entry_tests::{claims, is_finish, is_quit, is_run, is_started};
use job_calls::Entry;

/// The job was ended before its time.
pub(crate) fn has_quit(journal: &[Entry]) -> bool
    ensures { result ≡ entries.has_quit journal.now }
{
    journal.iter().any(|e| is_quit(&e.call))
}

pub(crate) fn start_count(journal: &[Entry]) -> usize
    ensures { result + 1 ≡ entries.run_count journal.now }
{
    journal.iter().filter(|e| is_started(&e.reply)).count()
}

/// The runs that there are, run 0 included.
pub(crate) fn run_count(journal: &[Entry]) -> u32
    requires { length journal.now < 2 ^ 31 }
    ensures { result ≡ entries.run_count journal.now }
{
    let started = start_count(journal);
    started as u32 + 1
}

pub(crate) fn is_claimed(run_number: u32, journal: &[Entry]) -> bool
    ensures { result ≡ entries.is_claimed run_number journal.now }
{
    journal.iter().any(|e| claims(run_number, &e.reply))
}

pub(crate) fn is_finished(run_number: u32, journal: &[Entry]) -> bool
    ensures { result ≡ entries.is_finished run_number journal.now }
{
    journal
        .iter()
        .any(|e| is_run(run_number, e.run) && is_finish(&e.call))
}

/// The least run that no lane was given.
pub(crate) fn unclaimed(journal: &[Entry]) -> Option<u32>
    requires { length journal.now < 2 ^ 31 }
    ensures { result ≡ entries.unclaimed_run journal.now }
{
    let many = run_count(journal);
    for run_number in 0..many {
        if !is_claimed(run_number, journal) {
            return Some(run_number);
        }
    }
    None
}
