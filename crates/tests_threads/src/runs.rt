//! What the lanes of the test do: a master that starts two children, and a child.
ghost use Rattle.std.specs.Prelude.{◌≡◌, IfOk, IfSome};
ghost use Rattle.tests_threads.specs.Holding.{IsLane, IsKept, IsFresh, IsHolding, IsPlainCall};

use crate::asking::{call, claim, done, finish, made};
use hub_core::Hub;
use hub_lock::{Keep, Seat};
use job_calls::{Call, Reply};
use mos_text::{NoMemory, Text, let_go};
use std::alloc::Global;
use std::sync::Wait;

fn text(alloc: Global, text: &str) -> Result<Text, NoMemory> {
    Ok(Text::from_string(String::from_str(alloc, text)?))
}

fn compile(alloc: Global) -> Result<Call, NoMemory>
    ensures { IfOk result (λ next. IsPlainCall next) }
{
    let src = text(alloc, "c.mos")?;
    let dst = text(alloc, "c.bim")?;
    Ok(Call::Compile { src, dst })
}

// Compiles the child's source, loads it and starts a run of it; whether all was done.
fn start<R: Wait>(
    rt: &R,
    alloc: Global,
    keep: &Keep<Hub>,
    seat: &mut Seat<Hub>,
    run: u32,
) -> Option<()>
    requires lane { IsLane keep.now seat.old }
    requires held { IsHolding run seat.old }
    ensures kept { IsKept keep.now seat.old seat.new }
    ensures held { IfSome result (λ _. IsHolding run seat.new) }
{
    made(rt, keep, seat, run, compile(alloc).ok()?)?;
    let file = text(alloc, "c.bim").ok()?;
    match call(rt, keep, seat, run, Call::Load { file })? {
        Reply::Loaded { model, .. } => {
            let params = Text::from_string(String::new(alloc));
            made(rt, keep, seat, run, Call::Run { model, params })
        }
        other => {
            let_go(other);
            None
        }
    }
}

// Waits for an event and takes it.
fn take<R: Wait>(rt: &R, keep: &Keep<Hub>, seat: &mut Seat<Hub>, run: u32) -> Option<()>
    requires lane { IsLane keep.now seat.old }
    requires held { IsHolding run seat.old }
    ensures kept { IsKept keep.now seat.old seat.new }
    ensures held { IfSome result (λ _. IsHolding run seat.new) }
{
    made(rt, keep, seat, run, Call::Wait)?;
    made(rt, keep, seat, run, Call::Next)
}

fn event(to: Option<u32>) -> Call
    ensures { IsPlainCall result }
{
    Call::Send {
        to,
        class: 2,
        value: 7,
    }
}

// Starts two children, hears from both, lets them end and hears of their ends.
fn lead<R: Wait>(
    rt: &R,
    alloc: Global,
    keep: &Keep<Hub>,
    seat: &mut Seat<Hub>,
    run: u32,
) -> Option<()>
    requires lane { IsLane keep.now seat.old }
    requires held { IsHolding run seat.old }
    ensures kept { IsKept keep.now seat.old seat.new }
    ensures held { IfSome result (λ _. IsHolding run seat.new) }
{
    start(rt, alloc, keep, seat, run)?;
    start(rt, alloc, keep, seat, run)?;
    take(rt, keep, seat, run)?;
    take(rt, keep, seat, run)?;
    made(rt, keep, seat, run, event(Some(1)))?;
    made(rt, keep, seat, run, event(Some(2)))?;
    take(rt, keep, seat, run)?;
    take(rt, keep, seat, run)
}

// Says that it is there, and waits for an event.
fn follow<R: Wait>(rt: &R, keep: &Keep<Hub>, seat: &mut Seat<Hub>, run: u32) -> Option<()>
    requires lane { IsLane keep.now seat.old }
    requires held { IsHolding run seat.old }
    ensures kept { IsKept keep.now seat.old seat.new }
    ensures held { IfSome result (λ _. IsHolding run seat.new) }
{
    made(rt, keep, seat, run, event(None))?;
    take(rt, keep, seat, run)
}

// What a lane's thread gives back: its seat, and whether it was told that the job is done.
pub type LaneEnd = (Seat<Hub>, bool);

// The whole of lane 0.
pub fn master<R: Wait>(rt: &R, alloc: Global, keep: &Keep<Hub>, mut seat: Seat<Hub>) -> LaneEnd
    requires lane { IsLane keep.now seat }
    requires fresh { IsFresh seat }
    ensures kept { IsKept keep.now seat result.0 }
{
    let Some(run) = claim(rt, keep, &mut seat) else {
        return (seat, false);
    };
    if lead(rt, alloc, keep, &mut seat, run).is_none() {
        return (seat, false);
    }
    let is_done = finish(rt, keep, &mut seat, run) && done(rt, keep, &mut seat);
    (seat, is_done)
}

// The whole of another lane.
pub fn child<R: Wait>(rt: &R, keep: &Keep<Hub>, mut seat: Seat<Hub>) -> LaneEnd
    requires lane { IsLane keep.now seat }
    requires fresh { IsFresh seat }
    ensures kept { IsKept keep.now seat result.0 }
{
    let Some(run) = claim(rt, keep, &mut seat) else {
        return (seat, false);
    };
    if follow(rt, keep, &mut seat, run).is_none() {
        return (seat, false);
    }
    let is_done = finish(rt, keep, &mut seat, run) && done(rt, keep, &mut seat);
    (seat, is_done)
}
