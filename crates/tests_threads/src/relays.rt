//! Lanes that come by turns, each on a thread of its own.
ghost use Rattle.std.specs.Prelude.{◌≡◌, ◌+◌, ◌^◌, ◌<◌, length, Some};
ghost use Rattle.hub_lock.specs.Seats.{lane, seats_made, first_entry, IsSeatOf};
ghost use Rattle.tests_threads.specs.Relays.{IsReady};

use crate::ending::one;
use crate::relay::Relay;
use hub_lock::{Ended, Held, Keep, Seat};
use mos_text::{NoMemory, let_go};
use std::alloc::Global;
use std::sync::Wait;
use std::thread::{Threads, join};

// Makes so many calls, each until it is ready, and says how many were answered by their own number.
fn run<R: Wait>(
    rt: &R,
    keep: &Keep<Relay>,
    mut seat: Seat<Relay>,
    begun: u32,
    times: u32,
) -> (Seat<Relay>, u32)
    requires own { IsSeatOf keep.now seat }
    requires ready { IsReady seat begun }
    requires few { begun + times < 2 ^ 32 }
    ensures own { IsSeatOf keep.now result.0 }
    ensures same { (lane result.0 ≡ lane seat) × (seats_made result.0 ≡ seats_made seat) }
{
    let mut answered = 0u32;
    for number in begun..begun + times {
        let Ok(same) = keep.act_when_ready(rt, &mut seat, number) else {
            return (seat, answered);
        };
        if same == number {
            answered = answered.wrapping_add(1);
        }
    }
    (seat, answered)
}

// Two lanes, each on a thread of its own. Lane 0 has begun.
fn both<R: Threads + Wait + Sync>(
    rt: &R,
    keep: &Keep<Relay>,
    first: Seat<Relay>,
    second: Seat<Relay>,
) -> ((Seat<Relay>, u32), (Seat<Relay>, u32))
    requires own { IsSeatOf keep.now first × IsSeatOf keep.now second }
    requires ready { IsReady first 1 × IsReady second 0 }
    ensures own { IsSeatOf keep.now result.0.0 × IsSeatOf keep.now result.1.0 }
    ensures first { (lane result.0.0 ≡ lane first) × (seats_made result.0.0 ≡ seats_made first) }
    ensures second { lane result.1.0 ≡ lane second }
{
    join(
        rt,
        || -> (Seat<Relay>, u32)
            requires { IsSeatOf keep.now first × IsReady first 1 }
            ensures { IsSeatOf keep.entry.now result.0 × (lane result.0
                ≡ lane first) × (seats_made result.0 ≡ seats_made first) }
        { run(rt, keep, first, 1, 100) },
        || -> (Seat<Relay>, u32)
            requires { IsSeatOf keep.now second × IsReady second 0 }
            ensures { IsSeatOf keep.entry.now result.0 × (lane result.0 ≡ lane second) }
        { run(rt, keep, second, 0, 100) },
    )
}

// What was refused and when, how many calls of each lane were answered, and whether the entries alternate.
fn told(
    alloc: Global,
    early: &Held<Relay>,
    ended: &Ended<Relay>,
    answered: (u32, u32),
) -> Result<String, NoMemory> {
    let Held { seen, held } = early;
    let (entries, alternates) = (ended.entries, ended.story.alternates());
    let (ones, twos) = answered;
    Ok(format!(in alloc;
        "{held:?} after {seen}, {ones} and {twos} answered, {entries} entries, alternates {alternates}"
    )?)
}

/// Lane 0 comes too early, then two lanes come by turns.
pub fn relay<R: Threads + Wait + Sync>(rt: &R, alloc: Global) -> Result<String, NoMemory> {
    let (keep, mut first) = Keep::begin(alloc, Relay::new(alloc)?, 2)?;
    let Ok(second) = keep.split(&mut first) else {
        unreachable!()
    };
    let Err(early) = keep.act(rt, &mut first, 1) else {
        let_go(second);
        let_go(first);
        let_go(keep);
        return Ok(String::from_str(alloc, "lane 0 came twice")?);
    };
    let ((first, ones), (second, twos)) = both(rt, &keep, first, second);
    let Ok(others) = one(alloc, second) else {
        let_go(first);
        let_go(keep);
        return Err(NoMemory);
    };
    let ended = keep.close(first, others);
    let said = told(alloc, &early, &ended, (ones, twos));
    let_go(ended);
    said
}
