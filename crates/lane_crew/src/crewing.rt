//! Lanes on scoped threads: room for their ends, their starts, their ends.
ghost use Rattle.std.specs.Prelude.{◌≡◌, ◌+◌, ◌≤◌, List, [], ◌∷◌, ◌++◌, length, true, false, IfSome, vec_len, vec_capacity};
ghost use Rattle.std.specs.List.{AllZip};
ghost use Rattle.lane_crew.specs.Starts.{IsBegun, AreOver};

use crate::begun::{Begun, Handle, end_of};
use crate::crewed::Crewed;
use crate::lane::Lane;
use crate::starts::start_all;
use std::alloc::Global;
use std::sync::Wait;
use std::sync::atomic::AtomicUsize;
use std::thread::{self, Scope, Threads};

/// Room for lanes that are begun, and for all ends.
#[derive(Drop)]
struct Room<L: Lane> {
    begun: Vec<Begun<Handle<L>, L::End>>,
    over: Vec<L::End>,
    ends: Vec<L::End>,
}

/// The ends of all lanes, whether all were started, and how many starts there were.
#[derive(Drop)]
pub(crate) struct Over<E> {
    pub(crate) all: bool,
    pub(crate) tried: usize,
    pub(crate) ends: Vec<E>,
}

/// Room for so many lanes beside the first.
fn make_room<L: Lane>(alloc: Global, others: usize) -> Option<Room<L>>
    ensures empty { IfSome result
        (λ room. (room.begun.items ≡ []) × (room.over.items ≡ []) × (room.ends.items ≡ [])) }
    ensures begun { IfSome result (λ room. others ≤ vec_capacity room.begun) }
    ensures over { IfSome result (λ room. others ≤ vec_capacity room.over) }
    ensures ends { IfSome result (λ room. others + 1 ≤ vec_capacity room.ends) }
{
    let all = others.checked_add(1)?;
    let begun = Vec::with_capacity(alloc, others).ok()?;
    let over = Vec::with_capacity(alloc, others).ok()?;
    let ends = Vec::with_capacity(alloc, all).ok()?;
    Some(Room { begun, over, ends })
}

/// Joins all that was begun, in order, and puts the ends behind those that are there.
fn join_all<R: Threads + Wait, L: Lane>(
    rt: &R,
    begun: Vec<Begun<Handle<L>, L::End>>,
    ends: &mut Vec<L::End>,
)
    requires room { vec_len ends.old + length begun.items ≤ vec_capacity ends.old }
    ensures ends { (more : List L.End)
        × (ends.new.items ≡ ends.old.items ++ more)
        × AllZip (λ one end. (lane : L) → IsBegun (λ of handle. handle.promise.lane.value ≡ of) L.ran lane one → L.ran lane end) begun.items more }
    ensures counted { vec_len ends.new ≡ vec_len ends.old + length begun.items }
    ensures capacity { vec_capacity ends.new ≡ vec_capacity ends.old }
{
    for one in begun {
        ends.push_reserved(end_of(rt, one));
    }
}

/// Puts these ends behind those that are there.
fn put_behind<E: Drop>(over: Vec<E>, ends: &mut Vec<E>)
    requires room { vec_len ends.old + length over.items ≤ vec_capacity ends.old }
    ensures { ends.new.items ≡ ends.old.items ++ over.items }
{
    for end in over {
        ends.push_reserved(end);
    }
}

/// The first lane runs here, or quits where a start was refused.
fn end_first<R: Wait, L: Lane>(rt: &R, first: L, all: bool) -> L::End
    ensures ran { all ≡ true → L.ran first result }
    ensures quitted { all ≡ false → L.quitted first result }
{
    if all { first.run(rt) } else { first.quit(rt) }
}

/// Starts the other lanes, runs the first here or lets it quit, and joins those that were started.
fn run_scoped<'s, 'e, R: Threads + Wait + Sync, L: Lane + 's>(
    rt: &'s R,
    scope: &Scope<'s, &'e ()>,
    refused: &'s AtomicUsize,
    first: L,
    others: Vec<L>,
    allowed: usize,
    room: Room<L>,
) -> Over<L::End>
    requires empty { (room.begun.items ≡ []) × (room.over.items ≡ []) × (room.ends.items ≡ []) }
    requires begun { length others.items ≤ vec_capacity room.begun }
    requires over { length others.items ≤ vec_capacity room.over }
    requires ends { length others.items + 1 ≤ vec_capacity room.ends }
    ensures { AreOver L.ran L.quitted first others.items result.all result.ends.items }
{
    let Room {
        mut begun,
        mut over,
        mut ends,
    } = room;
    let all = start_all(rt, scope, refused, others, allowed, &mut begun, &mut over);
    let tried = begun.len().saturating_add(usize::from(!all));
    let end = end_first(rt, first, all);
    ends.push_reserved(end);
    join_all(rt, begun, &mut ends);
    put_behind(over, &mut ends);
    Over { all, tried, ends }
}

/// All lanes on the threads of one scope.
fn run_in<R: Threads + Wait + Sync, L: Lane>(
    rt: &R,
    first: L,
    others: Vec<L>,
    allowed: usize,
    room: Room<L>,
) -> Over<L::End>
    requires empty { (room.begun.items ≡ []) × (room.over.items ≡ []) × (room.ends.items ≡ []) }
    requires begun { length others.items ≤ vec_capacity room.begun }
    requires over { length others.items ≤ vec_capacity room.over }
    requires ends { length others.items + 1 ≤ vec_capacity room.ends }
    ensures { AreOver L.ran L.quitted first others.items result.all result.ends.items }
{
    let refused = AtomicUsize::new(usize::MAX);
    let flag = &refused;
    thread::scope(
        thread::scope_env(),
        rt,
        |scope| -> Over<L::End>
            requires { (room.begun.items ≡ []) × (room.over.items ≡ []) × (room.ends.items ≡ [])
                × (length others.items ≤ vec_capacity room.begun)
                × (length others.items ≤ vec_capacity room.over)
                × (length others.items + 1 ≤ vec_capacity room.ends) }
            ensures { AreOver L.ran L.quitted first others.items result.all result.ends.items }
        { run_scoped(rt, scope, flag, first, others, allowed, room) },
    )
}

/// Lets all lanes quit, and drops their ends.
fn quit_all<R: Wait, L: Lane>(rt: &R, first: L, others: Vec<L>) {
    drop(first.quit(rt));
    for lane in others {
        drop(lane.quit(rt));
    }
}

/// How all lanes end where so many of the others may be started; none where there is no room for the ends.
pub(crate) fn run_all<R: Threads + Wait + Sync, L: Lane>(
    rt: &R,
    alloc: Global,
    first: L,
    others: Vec<L>,
    allowed: usize,
) -> Option<Over<L::End>>
    ensures { IfSome result (λ it. AreOver L.ran L.quitted first others.items it.all it.ends.items) }
{
    match make_room(alloc, others.len()) {
        Some(room) => Some(run_in(rt, first, others, allowed, room)),
        None => {
            quit_all(rt, first, others);
            None
        }
    }
}
