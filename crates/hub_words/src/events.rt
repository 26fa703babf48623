//! The queues of events.
ghost use Rattle.std.specs.Prelude.{◌≡◌, ℕ, ◌<◌, ◌^◌, length, slice_get, if◌then◌else◌, option_map};
ghost use Rattle.job_calls.specs.Events as events;
ghost use Rattle.job_calls.specs.Models as models;
ghost use Rattle.hub_words.specs.Fronts.{event_value};
ghost use Rattle.job_calls.specs.Moments.{Moment, moments};

use crate::entry_tests::is_run;
use crate::models::parent_of;
use job_calls::{Call, End, Entry, Reply};

/// The run that the entry makes an event for.
fn receiver_of(before: &[Entry], entry: &Entry) -> Option<u32>
    ensures { result ≡ events.receiver_of before.now entry.now.run entry.now.call entry.now.reply }
{
    match (&entry.call, &entry.reply) {
        (Call::Send { .. }, Reply::Queued { run }) => Some(*run),
        (Call::Finish(_), _) => match entry.run {
            None => None,
            Some(run) => parent_of(run, before),
        },
        _ => None,
    }
}

fn comes_to(run_number: u32, before: &[Entry], entry: &Entry) -> bool
    ensures { result ≡ events.comes_to run_number
        (record { before = before.now; entry = entry.now }) }
{
    is_run(run_number, receiver_of(before, entry))
}

fn is_took(reply: &Reply) -> bool
    ensures { result ≡ events.is_took reply.now }
{
    matches!(reply, Reply::Took { .. })
}

/// How many events this run took.
fn taken_count(run_number: u32, journal: &[Entry]) -> usize
    ensures { result ≡ events.taken_count run_number journal.now }
{
    journal
        .iter()
        .filter(|e| is_run(run_number, e.run) && is_took(&e.reply))
        .count()
}

fn one_if(holds: bool) -> usize
    ensures { result ≡ (if holds then 1 else 0) }
{
    if holds { 1 } else { 0 }
}

/// How many events came to this run.
fn arrival_count(run_number: u32, journal: &[Entry]) -> usize
    ensures { result ≡ length (events.arrivals run_number journal.now) }
{
    let mut count = 0;
    for (i, e) in journal.iter().enumerate() {
        count += one_if(comes_to(run_number, &journal[..i], e));
    }
    count
}

/// How many events this run has not taken.
pub(crate) fn queue_length(run_number: u32, journal: &[Entry]) -> usize
    ensures { result ≡ length (events.queue run_number journal.now) }
{
    arrival_count(run_number, journal).saturating_sub(taken_count(run_number, journal))
}

/// The place of the event that came to this run after so many.
fn arrival_at(run_number: u32, journal: &[Entry], number: usize) -> Option<u32>
    requires { length journal.now < 2 ^ 31 }
    ensures { result ≡ slice_get (events.arrivals run_number journal.now) number }
{
    let mut left = number;
    for (i, e) in journal.iter().enumerate() {
        let comes = comes_to(run_number, &journal[..i], e);
        if comes && left == 0 {
            return Some(i as u32);
        }
        left -= one_if(comes);
    }
    None
}

/// The place of the first event that this run has not taken.
pub(crate) fn first_event(run_number: u32, journal: &[Entry]) -> Option<u32>
    requires { length journal.now < 2 ^ 31 }
    ensures { result ≡ events.first_event run_number journal.now }
{
    arrival_at(run_number, journal, taken_count(run_number, journal))
}

/// The number of an end that the run which started it is told.
pub fn exit_code(end: End) -> i32
    ensures { result ≡ models.exit_code end }
{
    match end {
        End::Code(n) => n,
        End::Fault(_) => 100,
        End::Spent => 101,
        End::Stopped => 102,
        End::NoMemory => 103,
    }
}

/// An event, and the place of the entry that made it.
#[derive(Clone, Copy, Debug)]
pub struct Event {
    pub place: u32,
    pub class: i32,
    pub value: i32,
}

/// The event that a call makes at this place.
fn event_of(place: u32, call: &Call) -> Option<Event>
    ensures { option_map event_value result ≡ events.event_of place call.now }
{
    match call {
        Call::Send { class, value, .. } => Some(Event {
            place,
            class: *class,
            value: *value,
        }),
        Call::Finish(end) => Some(Event {
            place,
            class: 1,
            value: exit_code(*end),
        }),
        _ => None,
    }
}

/// The event at this place.
pub fn event_at(place: u32, journal: &[Entry]) -> Option<Event>
    ensures { option_map event_value result ≡ events.event_at place journal.now }
{
    match journal.get(place as usize) {
        None => None,
        Some(entry) => event_of(place, &entry.call),
    }
}

/// The first event that this run has not taken.
pub(crate) fn front(run_number: u32, journal: &[Entry]) -> Option<Event>
    requires { length journal.now < 2 ^ 31 }
    ensures { option_map event_value result ≡ events.front run_number journal.now }
{
    match first_event(run_number, journal) {
        None => None,
        Some(place) => event_at(place, journal),
    }
}
