//! What an entry does to the runs, a step at a time.
ghost use Rattle.std.specs.Prelude.{◌≡◌, ◌≤◌, ◌<◌, ◌+◌, ◌^◌, ◌||◌, ◌++◌, ◌∷◌, [], ℕ, List, Some, true, false, nat_eq, drop, length, slice_get, OnOk, IsOk, if◌then◌else◌};
ghost use Rattle.event_queue.specs.Runs.{parent_at, ended_at, places_at, KeepRooms, RoomAt};
ghost use Rattle.event_queue.specs.Steps.{SayTheSame, HasSpare, place_for, taken_if};

use crate::run::Run;
use mos_text::NoMemory;
use std::alloc::Global;

/// One more run, to which nothing has come so far.
pub(crate) fn add(alloc: Global, runs: &mut Vec<Run>) -> Result<(), NoMemory>
    requires { KeepRooms runs.old.items }
    ensures rooms { KeepRooms runs.new.items }
    ensures same { SayTheSame runs.old.items runs.new.items }
    ensures more { OnOk result (length runs.new.items ≡ length runs.old.items + 1) }
{
    runs.push(Run::idle(alloc)?)?;
    Ok(())
}

/// Makes a place for the run, and for all below it.
pub(crate) fn cover(alloc: Global, runs: &mut Vec<Run>, run: u32) -> Result<(), NoMemory>
    requires { KeepRooms runs.old.items }
    ensures rooms { KeepRooms runs.new.items }
    ensures same { SayTheSame runs.old.items runs.new.items }
    ensures covers { OnOk result (run < length runs.new.items) }
    ensures sure { run < length runs.old.items → IsOk result }
    ensures stays { run < length runs.old.items → runs.new.items ≡ runs.old.items }
{
    if (run as usize) < runs.len() {
        return Ok(());
    }
    for _ in runs.len()..run as usize + 1 {
        add(alloc, runs)?;
    }
    Ok(())
}

/// Makes room in the run's queue for one event beside the ends of children.
pub(crate) fn make_room(runs: &mut Vec<Run>, run: u32) -> Result<(), NoMemory>
    requires rooms { KeepRooms runs.old.items }
    requires covers { run < length runs.old.items }
    ensures rooms { KeepRooms runs.new.items }
    ensures same { SayTheSame runs.old.items runs.new.items }
    ensures room { OnOk result (RoomAt runs.new.items run) }
    ensures sure { RoomAt runs.old.items run → IsOk result }
{
    match runs.get_mut(run as usize) {
        Some(run) => run.make_room(),
        None => Ok(()),
    }
}

/// An event comes to the run.
pub(crate) fn arrive(runs: &mut Vec<Run>, run: u32, place: u32)
    requires rooms { KeepRooms runs.old.items }
    requires room { RoomAt runs.old.items run }
    ensures rooms { KeepRooms runs.new.items }
    ensures covers { length runs.old.items ≤ length runs.new.items }
    ensures parents { (k : ℕ) → parent_at runs.new.items k ≡ parent_at runs.old.items k }
    ensures ended { (k : ℕ) → ended_at runs.new.items k ≡ ended_at runs.old.items k }
    ensures places { (k : ℕ) → places_at runs.new.items k
        ≡ places_at runs.old.items k ++ place_for k (Some run) place }
{
    if let Some(run) = runs.get_mut(run as usize) {
        run.push(place);
    }
}

/// The run takes its first event.
pub(crate) fn take(runs: &mut Vec<Run>, run: u32)
    requires rooms { KeepRooms runs.old.items }
    ensures rooms { KeepRooms runs.new.items }
    ensures covers { length runs.old.items ≤ length runs.new.items }
    ensures parents { (k : ℕ) → parent_at runs.new.items k ≡ parent_at runs.old.items k }
    ensures ended { (k : ℕ) → ended_at runs.new.items k ≡ ended_at runs.old.items k }
    ensures places { (k : ℕ) → places_at runs.new.items k
        ≡ taken_if (nat_eq run k) (places_at runs.old.items k) }
{
    if let Some(run) = runs.get_mut(run as usize) {
        run.places.pop_front();
    }
}

/// A child of the run is to start: room is kept for its end.
fn expect(runs: &mut Vec<Run>, run: u32)
    requires rooms { KeepRooms runs.old.items }
    requires room { RoomAt runs.old.items run }
    ensures rooms { KeepRooms runs.new.items }
    ensures same { SayTheSame runs.old.items runs.new.items }
    ensures spare { HasSpare runs.new.items run }
{
    if let Some(run) = runs.get_mut(run as usize) {
        run.children += 1;
    }
}

/// The run was started by the caller, which keeps room for its end.
fn set_parent(runs: &mut Vec<Run>, run: u32, caller: u32)
    requires rooms { KeepRooms runs.old.items }
    requires covers { (run < length runs.old.items) × (caller < length runs.old.items) }
    requires spare { HasSpare runs.old.items caller }
    ensures rooms { KeepRooms runs.new.items }
    ensures covers { length runs.old.items ≤ length runs.new.items }
    ensures parents { (k : ℕ) → parent_at runs.new.items k
        ≡ (if nat_eq run k then Some caller else parent_at runs.old.items k) }
    ensures ended { (k : ℕ) → ended_at runs.new.items k ≡ ended_at runs.old.items k }
    ensures places { (k : ℕ) → places_at runs.new.items k ≡ places_at runs.old.items k }
{
    if let Some(run) = runs.get_mut(run as usize) {
        run.parent = Some(caller);
    }
}

/// The run was started by the caller.
pub(crate) fn start(runs: &mut Vec<Run>, run: u32, caller: u32)
    requires rooms { KeepRooms runs.old.items }
    requires covers { run < length runs.old.items }
    requires room { RoomAt runs.old.items caller }
    ensures rooms { KeepRooms runs.new.items }
    ensures covers { length runs.old.items ≤ length runs.new.items }
    ensures parents { (k : ℕ) → parent_at runs.new.items k
        ≡ (if nat_eq run k then Some caller else parent_at runs.old.items k) }
    ensures ended { (k : ℕ) → ended_at runs.new.items k ≡ ended_at runs.old.items k }
    ensures places { (k : ℕ) → places_at runs.new.items k ≡ places_at runs.old.items k }
{
    expect(runs, caller);
    set_parent(runs, run, caller);
}

/// The run has ended; room that was kept for that is free.
fn set_ended(runs: &mut Vec<Run>, run: u32)
    requires rooms { KeepRooms runs.old.items }
    requires covers { run < length runs.old.items }
    ensures rooms { KeepRooms runs.new.items }
    ensures covers { length runs.old.items ≤ length runs.new.items }
    ensures parents { (k : ℕ) → parent_at runs.new.items k ≡ parent_at runs.old.items k }
    ensures ended { (k : ℕ) → ended_at runs.new.items k
        ≡ (ended_at runs.old.items k || nat_eq run k) }
    ensures places { (k : ℕ) → places_at runs.new.items k ≡ places_at runs.old.items k }
    ensures spare { ended_at runs.old.items run ≡ false → (p : ℕ) → parent_at runs.old.items run
        ≡ Some p → HasSpare runs.new.items p }
    ensures room { (p : ℕ) → RoomAt runs.old.items p → RoomAt runs.new.items p }
    ensures parent { (p : ℕ) → parent_at runs.old.items run ≡ Some p → p < length runs.new.items }
{
    if let Some(run) = runs.get_mut(run as usize) {
        run.ended = true;
    }
}

/// The room that the run kept for the end of a child is free for any event.
fn free_room(runs: &mut Vec<Run>, run: u32)
    requires rooms { KeepRooms runs.old.items }
    requires covers { run < length runs.old.items }
    requires spare { HasSpare runs.old.items run }
    ensures rooms { KeepRooms runs.new.items }
    ensures same { SayTheSame runs.old.items runs.new.items }
    ensures room { RoomAt runs.new.items run }
{
    if let Some(run) = runs.get_mut(run as usize) {
        run.children -= 1;
    }
}

/// The end of a child comes to the run, in the room that was kept for it.
fn arrive_kept(runs: &mut Vec<Run>, run: u32, place: u32)
    requires rooms { KeepRooms runs.old.items }
    requires covers { run < length runs.old.items }
    requires spare { HasSpare runs.old.items run }
    ensures rooms { KeepRooms runs.new.items }
    ensures covers { length runs.old.items ≤ length runs.new.items }
    ensures parents { (k : ℕ) → parent_at runs.new.items k ≡ parent_at runs.old.items k }
    ensures ended { (k : ℕ) → ended_at runs.new.items k ≡ ended_at runs.old.items k }
    ensures places { (k : ℕ) → places_at runs.new.items k
        ≡ places_at runs.old.items k ++ place_for k (Some run) place }
{
    free_room(runs, run);
    arrive(runs, run, place);
}

/// The run that started this one, and whether this one has ended.
pub(crate) fn facts(runs: &[Run], run: u32) -> (Option<u32>, bool)
    ensures parent { result.0 ≡ parent_at runs.now run }
    ensures ended { result.1 ≡ ended_at runs.now run }
{
    match runs.get(run as usize) {
        Some(run) => (run.parent, run.ended),
        None => (None, false),
    }
}

/// The place of the first event that the run has not taken.
pub(crate) fn first_place(runs: &[Run], run: u32) -> Option<u32>
    ensures { result ≡ slice_get (places_at runs.now run) 0 }
{
    match runs.get(run as usize) {
        Some(run) => run.places.front().copied(),
        None => None,
    }
}

/// How many events the run has not taken.
pub(crate) fn queue_length(runs: &[Run], run: u32) -> usize
    ensures { result ≡ length (places_at runs.now run) }
{
    match runs.get(run as usize) {
        Some(run) => run.places.len(),
        None => 0,
    }
}

/// The run has ended, and the one that started it is told so.
pub(crate) fn end(runs: &mut Vec<Run>, run: u32, place: u32)
    requires rooms { KeepRooms runs.old.items }
    requires covers { run < length runs.old.items }
    requires room { ended_at runs.old.items run ≡ true → (p : ℕ) → parent_at runs.old.items run
        ≡ Some p → RoomAt runs.old.items p }
    ensures rooms { KeepRooms runs.new.items }
    ensures covers { length runs.old.items ≤ length runs.new.items }
    ensures parents { (k : ℕ) → parent_at runs.new.items k ≡ parent_at runs.old.items k }
    ensures ended { (k : ℕ) → ended_at runs.new.items k
        ≡ (ended_at runs.old.items k || nat_eq run k) }
    ensures places { (k : ℕ) → places_at runs.new.items k
        ≡ places_at runs.old.items k ++ place_for k (parent_at runs.old.items run) place }
{
    let (parent, ended) = facts(runs, run);
    set_ended(runs, run);
    match parent {
        Some(parent) if ended => arrive(runs, parent, place),
        Some(parent) => arrive_kept(runs, parent, place),
        None => (),
    }
}
