//! Starting lanes one after another, until a start is refused.
ghost use Rattle.std.specs.Prelude.{◌≡◌, ◌+◌, ◌<◌, ◌≤◌, List, [], ◌∷◌, ◌++◌, length, Bool, true, vec_len, vec_capacity};
ghost use Rattle.lane_crew.specs.Starts.{HasCome, IsBegun, HaveStarted};

use crate::begun::{Begun, Came, Handle, come, comes_of};
use crate::lane::Lane;
use std::sync::Wait;
use std::sync::atomic::{AtomicUsize, Ordering};
use std::thread::{Scope, Threads};

/// What comes from a refused start: the lane quits, unless it has run here.
fn turn_away<R: Wait, L: Lane>(
    rt: &R,
    came: Came<L, L::End>,
    begun: &mut Vec<Begun<Handle<L>, L::End>>,
    over: &mut Vec<L::End>,
) -> bool
    requires begun { vec_len begun.old < vec_capacity begun.old }
    requires over { vec_len over.old < vec_capacity over.old }
    ensures next { (lanes : List L) (lane : L)
        → HasCome L.ran lane came
        → HaveStarted (IsBegun (λ of handle. handle.promise.lane.value ≡ of) L.ran) L.quitted lanes begun.old.items over.old.items true
        → HaveStarted (IsBegun (λ of handle. handle.promise.lane.value ≡ of) L.ran) L.quitted (lanes ++ lane ∷ []) begun.new.items over.new.items result }
    ensures counted { vec_len begun.new + vec_len over.new
        ≡ vec_len begun.old + vec_len over.old + 1 }
    ensures begun_room { vec_capacity begun.new ≡ vec_capacity begun.old }
    ensures over_room { vec_capacity over.new ≡ vec_capacity over.old }
{
    match came {
        Came::Ran(end) => {
            begun.push_reserved(Begun::Here(end));
            true
        }
        Came::Back(back) => {
            over.push_reserved(back.quit(rt));
            false
        }
    }
}

/// Starts the lane where all before it were started and it may be; else it quits. Whether it has begun.
fn start_next<'s, 'e, R: Threads + Wait + Sync, L: Lane + 's>(
    rt: &'s R,
    scope: &Scope<'s, &'e ()>,
    refused: &'s AtomicUsize,
    lane: L,
    may: bool,
    begun: &mut Vec<Begun<Handle<L>, L::End>>,
    over: &mut Vec<L::End>,
) -> bool
    requires begun { vec_len begun.old < vec_capacity begun.old }
    requires over { vec_len over.old < vec_capacity over.old }
    ensures next { (lanes : List L) (going : Bool)
        → (may ≡ true → going ≡ true)
        → HaveStarted (IsBegun (λ of handle. handle.promise.lane.value ≡ of) L.ran) L.quitted lanes begun.old.items over.old.items going
        → HaveStarted (IsBegun (λ of handle. handle.promise.lane.value ≡ of) L.ran) L.quitted (lanes ++ lane ∷ []) begun.new.items over.new.items result }
    ensures counted { vec_len begun.new + vec_len over.new
        ≡ vec_len begun.old + vec_len over.old + 1 }
    ensures begun_room { vec_capacity begun.new ≡ vec_capacity begun.old }
    ensures over_room { vec_capacity over.new ≡ vec_capacity over.old }
{
    if !may {
        over.push_reserved(lane.quit(rt));
        return false;
    }
    let place = begun.len();
    match scope.spawn_with(comes_of(&lane), move || come(rt, refused, place, lane)) {
        Ok(handle) => {
            begun.push_reserved(Begun::There(handle));
            true
        }
        Err(unstarted) => {
            refused.store(place, Ordering::SeqCst);
            turn_away(rt, (unstarted.value)(), begun, over)
        }
    }
}

/// Starts so many of the lanes, unless the machine refuses one before; the others quit. Whether all have begun.
pub(crate) fn start_all<'s, 'e, R: Threads + Wait + Sync, L: Lane + 's>(
    rt: &'s R,
    scope: &Scope<'s, &'e ()>,
    refused: &'s AtomicUsize,
    others: Vec<L>,
    allowed: usize,
    begun: &mut Vec<Begun<Handle<L>, L::End>>,
    over: &mut Vec<L::End>,
) -> bool
    requires empty { (begun.old.items ≡ []) × (over.old.items ≡ []) }
    requires begun { length others.items ≤ vec_capacity begun.old }
    requires over { length others.items ≤ vec_capacity over.old }
    ensures started { HaveStarted (IsBegun (λ of handle. handle.promise.lane.value ≡ of) L.ran) L.quitted others.items begun.new.items over.new.items result }
{
    let mut going = true;
    for lane in others {
        let may = going && begun.len() < allowed;
        going = start_next(rt, scope, refused, lane, may, begun, over);
    }
    going
}
