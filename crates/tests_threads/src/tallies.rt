//! Lanes that add to one tally from threads of their own, and what is refused.
ghost use Rattle.std.specs.Prelude.{◌≡◌, ◌+◌, ◌<◌, ◌≤◌, All, IfOk, vec_len};
ghost use denote.Param.Send.{IsSync};
ghost use Rattle.hub_lock.specs.Seats.{lane, seats_made, most_lanes, IsSeatOf};
ghost use Rattle.hub_lock.specs.Calls.{InOrder};

use crate::ending::pair;
use hub_lock::{Ended, Held, Keep, Refusal, Seat, Story, Tally};
use mos_text::{NoMemory, let_go};
use std::alloc::Global;
use std::sync::Wait;
use std::thread::{Threads, join};

// A lock is shared between threads and its seats go to them, wherever its story may.
fn crosses<S: Story + Send>() {
    are_shared_and_sent::<Keep<S>, Seat<S>>();
}

fn are_shared_and_sent<A: Sync, B: Send>() {}

// Makes so many calls of the amount 1.
fn put_ones<R: Wait>(rt: &R, keep: &Keep<Tally>, mut seat: Seat<Tally>, times: u32) -> Seat<Tally>
    requires { IsSeatOf keep.now seat }
    ensures own { IsSeatOf keep.now result }
    ensures same { (lane result ≡ lane seat) × (seats_made result ≡ seats_made seat) }
{
    for _ in 0..times {
        let _ = keep.act(rt, &mut seat, 1);
    }
    seat
}

// Two lanes, each on a thread of its own.
fn two_threads<R: Threads + Wait + Sync>(
    rt: &R,
    keep: &Keep<Tally>,
    first: Seat<Tally>,
    second: Seat<Tally>,
) -> (Seat<Tally>, Seat<Tally>)
    requires { IsSeatOf keep.now first × IsSeatOf keep.now second }
    ensures own { IsSeatOf keep.now result.0 × IsSeatOf keep.now result.1 }
    ensures first { (lane result.0 ≡ lane first) × (seats_made result.0 ≡ seats_made first) }
    ensures second { (lane result.1 ≡ lane second) × (seats_made result.1 ≡ seats_made second) }
{
    join(
        rt,
        || -> Seat<Tally>
            requires { IsSeatOf keep.now first }
            ensures { IsSeatOf keep.entry.now result × (lane result
                ≡ lane first) × (seats_made result ≡ seats_made first) }
        { put_ones(rt, keep, first, 1000) },
        || -> Seat<Tally>
            requires { IsSeatOf keep.now second }
            ensures { IsSeatOf keep.entry.now result × (lane result
                ≡ lane second) × (seats_made result ≡ seats_made second) }
        { put_ones(rt, keep, second, 1000) },
    )
}

// Three lanes, each on a thread of its own.
fn three_threads<R: Threads + Wait + Sync>(
    rt: &R,
    keep: &Keep<Tally>,
    first: Seat<Tally>,
    second: Seat<Tally>,
    third: Seat<Tally>,
) -> (Seat<Tally>, (Seat<Tally>, Seat<Tally>))
    requires { IsSeatOf keep.now first × IsSeatOf keep.now second × IsSeatOf keep.now third }
    ensures own { IsSeatOf keep.now result.0 × IsSeatOf keep.now result.1.0 × IsSeatOf keep.now result.1.1 }
    ensures first { (lane result.0 ≡ lane first) × (seats_made result.0 ≡ seats_made first) }
    ensures others { (lane result.1.0 ≡ lane second) × (lane result.1.1 ≡ lane third) }
{
    join(
        rt,
        || -> Seat<Tally>
            requires { IsSeatOf keep.now first }
            ensures { IsSeatOf keep.entry.now result × (lane result
                ≡ lane first) × (seats_made result ≡ seats_made first) }
        { put_ones(rt, keep, first, 1000) },
        || -> (Seat<Tally>, Seat<Tally>)
            requires { IsSync R.row × IsSeatOf keep.now second × IsSeatOf keep.now third }
            ensures { IsSeatOf keep.entry.now result.0 × IsSeatOf keep.entry.now result.1 × (lane result.0 ≡ lane second) × (lane result.1 ≡ lane third) }
        { two_threads(rt, keep, second, third) },
    )
}

// A sum, or why a call was refused and how many entries there were.
fn answered(alloc: Global, answer: &Result<u64, Held<Tally>>) -> Result<String, NoMemory> {
    match answer {
        Ok(sum) => Ok(format!(in alloc; "sum {sum}")?),
        Err(Held { seen, held }) => Ok(format!(in alloc; "{held:?} after {seen}")?),
    }
}

// How many entries there are, their sum, and how many are of lanes 0, 1, 2 and 63.
fn told(alloc: Global, ended: &Ended<Tally>) -> Result<String, NoMemory> {
    let (entries, sum) = (ended.entries, ended.story.sum());
    let (first, second) = (ended.story.count_of(0), ended.story.count_of(1));
    let (third, last) = (ended.story.count_of(2), ended.story.count_of(63));
    Ok(format!(in alloc; "{entries} entries, sum {sum}, by lane {first} {second} {third} {last}")?)
}

/// Three lanes, each on a thread of its own, make 1000 calls each.
pub fn three_lanes<R: Threads + Wait + Sync>(rt: &R, alloc: Global) -> Result<String, NoMemory> {
    let (keep, mut first) = Keep::begin(alloc, Tally::new(alloc)?, 3)?;
    let Ok(second) = keep.split(&mut first) else {
        unreachable!()
    };
    let Ok(third) = keep.split(&mut first) else {
        unreachable!()
    };
    let (first, (second, third)) = three_threads(rt, &keep, first, second, third);
    let lanes = (first.lane(), second.lane(), third.lane());
    let Ok(others) = pair(alloc, second, third) else {
        let_go(first);
        let_go(keep);
        return Err(NoMemory);
    };
    let ended = keep.close(first, others);
    let said = told_of(alloc, lanes, &ended);
    let_go(ended);
    said
}

// The numbers of three lanes, and the rest.
fn told_of(
    alloc: Global,
    lanes: (u32, u32, u32),
    ended: &Ended<Tally>,
) -> Result<String, NoMemory> {
    let (a, b, c) = lanes;
    let ended = told(alloc, ended)?;
    Ok(format!(in alloc; "lanes {a} {b} {c}, {ended}")?)
}

// All other lanes, each of which makes one call of the amount 2.
fn split_all<R: Wait>(
    rt: &R,
    alloc: Global,
    keep: &Keep<Tally>,
    first: &mut Seat<Tally>,
    lanes: u32,
) -> Result<Vec<Seat<Tally>>, NoMemory>
    requires own { IsSeatOf keep.now first.old × (lane first.old ≡ 0) × (seats_made first.old ≡ 1) }
    requires lanes { (0 < lanes) × (lanes ≤ most_lanes keep.now) }
    ensures own { IfOk result (λ others. IsSeatOf keep.now first.new × All
        (λ other. IsSeatOf keep.now other) others.items) }
    ensures lanes { IfOk result (λ others. (lane first.new ≡ 0) × InOrder others.items) }
    ensures all { IfOk result
        (λ others. (seats_made first.new ≡ lanes) × (vec_len others + 1 ≡ lanes)) }
{
    let mut others = Vec::new(alloc);
    for _ in 1..lanes {
        let mut next = keep.split(first)?;
        let _ = keep.act(rt, &mut next, 2);
        others.push(next)?;
    }
    Ok(others)
}

/// As many lanes as a lock may have, all on one thread.
pub fn sixty_four_lanes<R: Wait>(rt: &R, alloc: Global) -> Result<String, NoMemory> {
    let (keep, mut first) = Keep::begin(alloc, Tally::new(alloc)?, 64)?;
    let Ok(others) = split_all(rt, alloc, &keep, &mut first, 64) else {
        let_go(first);
        let_go(keep);
        return Err(NoMemory);
    };
    let last = keep.act(rt, &mut first, 1);
    let ended = keep.close(first, others);
    let said = answered_and_told(alloc, &last, &ended);
    let_go(ended);
    said
}

// What a call was answered, and how the tally ended.
fn answered_and_told(
    alloc: Global,
    answer: &Result<u64, Held<Tally>>,
    ended: &Ended<Tally>,
) -> Result<String, NoMemory> {
    with_comma(alloc, answered(alloc, answer)?, told(alloc, ended)?)
}

// Two texts, with a comma between them.
fn with_comma(alloc: Global, one: String, other: String) -> Result<String, NoMemory> {
    Ok(format!(in alloc; "{one}, {other}")?)
}

/// Two calls by `act`, the second of an amount of 0.
pub fn calls_at_once<R: Wait>(rt: &R, alloc: Global) -> Result<String, NoMemory> {
    crosses::<Tally>();
    let (keep, mut seat) = Keep::begin(alloc, Tally::new(alloc)?, 1)?;
    let (seven, zero) = (keep.act(rt, &mut seat, 7), keep.act(rt, &mut seat, 0));
    let ended = keep.close(seat, Vec::new(alloc));
    of_calls(alloc, &seven, &zero, &ended)
}

/// Two calls by `act_when_ready`; the sum of both is too much.
pub fn calls_when_ready<R: Wait>(rt: &R, alloc: Global) -> Result<String, NoMemory> {
    let (keep, mut seat) = Keep::begin(alloc, Tally::new(alloc)?, 1)?;
    let greatest = keep.act_when_ready(rt, &mut seat, u64::MAX);
    let more = keep.act_when_ready(rt, &mut seat, 1);
    let ended = keep.close(seat, Vec::new(alloc));
    of_calls(alloc, &greatest, &more, &ended)
}

// What two calls were answered, and how the tally ended.
fn of_calls(
    alloc: Global,
    one: &Result<u64, Held<Tally>>,
    other: &Result<u64, Held<Tally>>,
    ended: &Ended<Tally>,
) -> Result<String, NoMemory> {
    let both = with_comma(alloc, answered(alloc, one)?, answered(alloc, other)?)?;
    with_comma(alloc, both, told(alloc, ended)?)
}
