//! What an entry tells of the runs, and the room that this takes.
ghost use Rattle.std.specs.Prelude.{◌≡◌, ◌<◌, ◌≤◌, ◌||◌, ◌&&◌, ◌++◌, ℕ, Some, None, OnOk, IsOk, length, if◌then◌else◌};
ghost use Rattle.job_calls.specs.Entries.{is_run};
ghost use Rattle.job_calls.specs.Events.{is_took};
ghost use Rattle.job_calls.specs.Runs.{last_of};
ghost use Rattle.event_queue.specs.Runs.{parent_at, ended_at, places_at, KeepRooms, RoomAt};
ghost use Rattle.event_queue.specs.Steps.{SayTheSame, place_for, taken_if};
ghost use Rattle.event_queue.specs.Deeds as deeds;
ghost use Rattle.event_queue.specs.Deeds.{CanTell};

use crate::deed::{Deed, deed_of, taker};
use crate::run::Run;
use crate::steps::{arrive, cover, end, facts, make_room, start, take};
use job_calls::Entry;
use mos_text::NoMemory;
use std::alloc::Global;

/// The run whose start or end is told.
fn subject(deed: Deed) -> Option<u32>
    ensures { result ≡ deeds.subject deed }
{
    match deed {
        Deed::Starts { run, .. } => Some(run),
        Deed::Ends { run } => Some(run),
        _ => None,
    }
}

/// The run whose queue takes an event, or is to keep room for one.
fn keeper(runs: &[Run], deed: Deed) -> Option<u32>
    ensures { result ≡ deeds.keeper runs.now deed }
{
    match deed {
        Deed::Starts { caller, .. } => Some(caller),
        Deed::Sends { to } => Some(to),
        Deed::Ends { run } => parent_if_ended(runs, run),
        Deed::Nothing => None,
    }
}

/// The run that started this one, if this one has ended.
fn parent_if_ended(runs: &[Run], run: u32) -> Option<u32>
    ensures { result ≡ (if ended_at runs.now run then parent_at runs.now run else None) }
{
    let (parent, ended) = facts(runs, run);
    if ended { parent } else { None }
}

/// Makes a place for the run, if there is one.
fn cover_told(alloc: Global, runs: &mut Vec<Run>, run: Option<u32>) -> Result<(), NoMemory>
    requires { KeepRooms runs.old.items }
    ensures rooms { KeepRooms runs.new.items }
    ensures same { SayTheSame runs.old.items runs.new.items }
    ensures covers { OnOk result ((k : ℕ) → run ≡ Some k → k < length runs.new.items) }
    ensures sure { ((k : ℕ) → run ≡ Some k → k < length runs.old.items) → IsOk result }
    ensures stays { ((k : ℕ) → run ≡ Some k → k < length runs.old.items) → runs.new.items
        ≡ runs.old.items }
{
    match run {
        Some(run) => cover(alloc, runs, run),
        None => Ok(()),
    }
}

/// Makes a place for the run, and room in its queue for one event beside the ends of children.
fn room_for(alloc: Global, runs: &mut Vec<Run>, run: u32) -> Result<(), NoMemory>
    requires { KeepRooms runs.old.items }
    ensures rooms { KeepRooms runs.new.items }
    ensures same { SayTheSame runs.old.items runs.new.items }
    ensures room { OnOk result (RoomAt runs.new.items run) }
    ensures sure { RoomAt runs.old.items run → IsOk result }
{
    cover(alloc, runs, run)?;
    make_room(runs, run)
}

/// The same for the run, if there is one.
fn room_told(alloc: Global, runs: &mut Vec<Run>, run: Option<u32>) -> Result<(), NoMemory>
    requires { KeepRooms runs.old.items }
    ensures rooms { KeepRooms runs.new.items }
    ensures same { SayTheSame runs.old.items runs.new.items }
    ensures room { OnOk result ((k : ℕ) → run ≡ Some k → RoomAt runs.new.items k) }
    ensures sure { ((k : ℕ) → run ≡ Some k → RoomAt runs.old.items k) → IsOk result }
{
    match run {
        Some(run) => room_for(alloc, runs, run),
        None => Ok(()),
    }
}

/// Makes places and room for what is done.
fn ready_for(alloc: Global, runs: &mut Vec<Run>, deed: Deed) -> Result<(), NoMemory>
    requires { KeepRooms runs.old.items }
    ensures rooms { KeepRooms runs.new.items }
    ensures same { SayTheSame runs.old.items runs.new.items }
    ensures ready { OnOk result (CanTell runs.new.items deed) }
    ensures sure { CanTell runs.old.items deed → IsOk result }
{
    cover_told(alloc, runs, subject(deed))?;
    let run = keeper(runs, deed);
    room_told(alloc, runs, run)
}

/// Makes places and room for what the entry tells.
pub(crate) fn ready(alloc: Global, runs: &mut Vec<Run>, entry: &Entry) -> Result<(), NoMemory>
    requires { KeepRooms runs.old.items }
    ensures rooms { KeepRooms runs.new.items }
    ensures same { SayTheSame runs.old.items runs.new.items }
    ensures ready { OnOk result (CanTell runs.new.items (deeds.deed_of entry.now.run entry.now.call entry.now.reply)) }
    ensures sure { CanTell runs.old.items (deeds.deed_of entry.now.run entry.now.call entry.now.reply) → IsOk result }
{
    ready_for(alloc, runs, deed_of(entry))
}

/// What is done by a start, an end or an event that was sent.
fn tell_deed(runs: &mut Vec<Run>, deed: Deed, place: u32)
    requires rooms { KeepRooms runs.old.items }
    requires ready { CanTell runs.old.items deed }
    ensures rooms { KeepRooms runs.new.items }
    ensures covers { length runs.old.items ≤ length runs.new.items }
    ensures parents { (k : ℕ) → parent_at runs.new.items k
        ≡ last_of (parent_at runs.old.items k) (deeds.starter k deed) }
    ensures ended { (k : ℕ) → ended_at runs.new.items k
        ≡ (ended_at runs.old.items k || is_run k (deeds.ender deed)) }
    ensures places { (k : ℕ) → places_at runs.new.items k
        ≡ places_at runs.old.items k ++ place_for k (deeds.receiver runs.old.items deed) place }
{
    match deed {
        Deed::Starts { run, caller } => start(runs, run, caller),
        Deed::Sends { to } => arrive(runs, to, place),
        Deed::Ends { run } => end(runs, run, place),
        Deed::Nothing => (),
    }
}

/// What the entry tells of the runs, where it stands at this place.
pub(crate) fn tell(runs: &mut Vec<Run>, entry: &Entry, place: u32)
    requires rooms { KeepRooms runs.old.items }
    requires ready { CanTell runs.old.items (deeds.deed_of entry.now.run entry.now.call entry.now.reply) }
    ensures rooms { KeepRooms runs.new.items }
    ensures covers { length runs.old.items ≤ length runs.new.items }
    ensures parents { (k : ℕ) → parent_at runs.new.items k
        ≡ last_of (parent_at runs.old.items k)
        (deeds.starter k (deeds.deed_of entry.now.run entry.now.call entry.now.reply)) }
    ensures ended { (k : ℕ) → ended_at runs.new.items k
        ≡ (ended_at runs.old.items k || is_run k (deeds.ender (deeds.deed_of entry.now.run entry.now.call entry.now.reply))) }
    ensures places { (k : ℕ) → places_at runs.new.items k
        ≡ taken_if (is_run k entry.now.run && is_took entry.now.reply)
        (places_at runs.old.items k ++ place_for k (deeds.receiver runs.old.items (deeds.deed_of entry.now.run entry.now.call entry.now.reply)) place) }
{
    tell_deed(runs, deed_of(entry), place);
    if let Some(run) = taker(entry) {
        take(runs, run);
    }
}
