//! Calls of a lane that waits until it is answered.
ghost use Rattle.std.specs.Prelude.{◌≡◌, ◌++◌, [], ◌∷◌, true, false, Some, None, IfSome, IsTrue};
ghost use Rattle.job_calls.specs.Fitting.{fits, may_claim};
ghost use Rattle.hub_core.specs.Hubs.{entry_of};
ghost use Rattle.hub_core.specs.Stories.{opened_by};
ghost use Rattle.hub_lock.specs.Seats.{first_entry};
ghost use Rattle.tests_threads.specs.Holding.{own, IsLane, IsKept, IsFresh, IsHolding, IsPlainCall};

use hub_core::{Acted, Hub, HubCall};
use hub_lock::{Keep, Seat};
use job_calls::{Call, End, Reply};
use mos_text::let_go;
use std::sync::Wait;

// The reply, or none where the job was ended before its time or memory was wanting.
fn ask<R: Wait>(
    rt: &R,
    keep: &Keep<Hub>,
    seat: &mut Seat<Hub>,
    run: Option<u32>,
    call: Call,
) -> Option<Reply>
    requires lane { IsLane keep.now seat.old }
    requires may { IsTrue (fits (opened_by (first_entry seat.old)) (own seat.old) seat.old.lane run call) }
    ensures kept { IsKept keep.now seat.old seat.new }
    ensures asked { IfSome result
        (λ reply. own seat.new ≡ own seat.old ++ entry_of seat.old.lane run call reply ∷ []) }
{
    match keep.act_when_ready(rt, seat, HubCall { run, call }) {
        Ok(Acted { place: _, reply }) => Some(reply),
        Err(held) => {
            let_go(held);
            None
        }
    }
}

// A run for the lane.
pub fn claim<R: Wait>(rt: &R, keep: &Keep<Hub>, seat: &mut Seat<Hub>) -> Option<u32>
    requires lane { IsLane keep.now seat.old }
    requires fresh { IsFresh seat.old }
    ensures kept { IsKept keep.now seat.old seat.new }
    ensures held { IfSome result (λ run. IsHolding run seat.new) }
{
    match ask(rt, keep, seat, None, Call::Claim) {
        Some(Reply::Claimed { run, .. }) => Some(run),
        _ => None,
    }
}

// A call of the run that the lane holds; no reply that ends the run.
pub fn call<R: Wait>(
    rt: &R,
    keep: &Keep<Hub>,
    seat: &mut Seat<Hub>,
    run: u32,
    call: Call,
) -> Option<Reply>
    requires lane { IsLane keep.now seat.old }
    requires held { IsHolding run seat.old }
    requires plain { IsPlainCall call }
    ensures kept { IsKept keep.now seat.old seat.new }
    ensures held { IfSome result (λ _. IsHolding run seat.new) }
{
    match ask(rt, keep, seat, Some(run), call) {
        None => None,
        Some(Reply::Halt) => None,
        Some(Reply::Fault(_)) => None,
        Some(Reply::Done) => None,
        Some(reply) => Some(reply),
    }
}

// The same, where the reply does not matter.
pub fn made<R: Wait>(
    rt: &R,
    keep: &Keep<Hub>,
    seat: &mut Seat<Hub>,
    run: u32,
    next: Call,
) -> Option<()>
    requires lane { IsLane keep.now seat.old }
    requires held { IsHolding run seat.old }
    requires plain { IsPlainCall next }
    ensures kept { IsKept keep.now seat.old seat.new }
    ensures held { IfSome result (λ _. IsHolding run seat.new) }
{
    let reply = call(rt, keep, seat, run, next)?;
    let_go(reply);
    Some(())
}

// The end of the run, by code 0; whether the hub took it.
pub fn finish<R: Wait>(rt: &R, keep: &Keep<Hub>, seat: &mut Seat<Hub>, run: u32) -> bool
    requires lane { IsLane keep.now seat.old }
    requires held { IsHolding run seat.old }
    ensures kept { IsKept keep.now seat.old seat.new }
    ensures free { result ≡ true → may_claim (own seat.new) ≡ true }
{
    match ask(rt, keep, seat, Some(run), Call::Finish(End::Code(0))) {
        Some(Reply::Unit) => true,
        _ => false,
    }
}

// Whether the lane, which holds no run, is told that the job is done.
pub fn done<R: Wait>(rt: &R, keep: &Keep<Hub>, seat: &mut Seat<Hub>) -> bool
    requires lane { IsLane keep.now seat.old }
    requires free { may_claim (own seat.old) ≡ true }
    ensures kept { IsKept keep.now seat.old seat.new }
{
    match ask(rt, keep, seat, None, Call::Claim) {
        Some(Reply::Done) => true,
        _ => false,
    }
}
