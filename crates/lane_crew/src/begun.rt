//! A lane that was begun: its closure, its thread and its end.
ghost use Rattle.std.specs.Prelude.{◌≡◌};
ghost use Rattle.lane_crew.specs.Starts.{HasCome, IsBegun};

use crate::lane::Lane;
use std::snapshot::Snapshot;
use std::sync::Wait;
use std::sync::atomic::{AtomicUsize, Ordering};
use std::thread::{Promise, PromisedHandle, Threads};

/// What a lane's closure gives.
#[derive(Drop)]
pub(crate) enum Came<L, E> {
    /// The lane has run to this end.
    Ran(E),
    /// The lane's start was refused.
    Back(L),
}

/// That what comes is of this lane.
#[derive(Drop)]
pub(crate) struct ComesOf<L> {
    lane: Snapshot<L>,
}

impl<L: Lane> Promise<Came<L, L::End>> for ComesOf<L> {
    ghost kept_by = { λ p r. HasCome L.ran p.lane.value r };
}

/// A lane that was begun, on a thread of its own or here.
#[derive(Drop)]
pub(crate) enum Begun<H, E> {
    There(H),
    Here(E),
}

/// The thread of a lane.
pub(crate) type Handle<L> = PromisedHandle<Came<L, <L as Lane>::End>, ComesOf<L>>;

pub(crate) fn comes_of<L: Lane>(lane: &L) -> ComesOf<L>
    ensures { result.lane.value ≡ lane.now }
{
    ComesOf {
        lane: Snapshot::of(lane),
    }
}

/// Runs the lane, unless its own start is the one that was refused.
pub(crate) fn come<R: Wait, L: Lane>(
    rt: &R,
    refused: &AtomicUsize,
    place: usize,
    lane: L,
) -> Came<L, L::End>
    ensures { HasCome L.ran lane result }
{
    if refused.load(Ordering::SeqCst) == place {
        return Came::Back(lane);
    }
    Came::Ran(lane.run(rt))
}

/// The end of a lane that was begun. A lane that came back all the same is run here.
pub(crate) fn end_of<R: Threads + Wait, L: Lane>(rt: &R, begun: Begun<Handle<L>, L::End>) -> L::End
    ensures { (lane : L)
        → IsBegun (λ of handle. handle.promise.lane.value ≡ of) L.ran lane begun
        → L.ran lane result }
{
    match begun {
        Begun::Here(end) => end,
        Begun::There(handle) => match handle.join(rt) {
            Came::Ran(end) => end,
            Came::Back(lane) => lane.run(rt),
        },
    }
}
