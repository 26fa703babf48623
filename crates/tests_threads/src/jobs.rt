//! Three lanes on three threads, from the opening of a job to its end.
ghost use Rattle.std.specs.Prelude.{IfOk, IfSome};
ghost use denote.Param.Send.{IsSync};
ghost use Rattle.hub_core.specs.Hubs.{journal_of};
ghost use Rattle.tests_threads.specs.Holding.{IsLane, IsKept, IsFresh, OpensThree};

use crate::ending::{end, pair};
use crate::runs::{LaneEnd, child, master};
use hub_core::{Acted, Hub, HubCall, HubHeld, can_open};
use hub_lock::{Ended, Keep, Seat};
use job_calls::Listed;
use mos_text::{Blob, NoMemory, SharedBlob, Text, let_go};
use sqlite_items::Items;
use std::alloc::Global;
use std::sync::Wait;
use std::thread::{Threads, join};

fn file(alloc: Global, name: &str) -> Result<Listed, NoMemory> {
    Ok(Listed {
        name: Text::from_string(String::from_str(alloc, name)?),
        bytes: SharedBlob::new(alloc, Blob::new(alloc, b"")?)?,
        code: 0,
    })
}

// A hub of a job with three lanes, a master and a source for its children; none where it cannot be opened.
fn open(alloc: Global) -> Result<Option<Hub>, NoMemory>
    ensures { IfOk result (λ opened. IfSome opened (λ hub. OpensThree (journal_of hub))) }
{
    let mut files = Items::new(alloc);
    files.push(file(alloc, "m.mos")?)?;
    files.push(file(alloc, "c.mos")?)?;
    if !can_open(3, 100, files.as_slice()) {
        return Ok(None);
    }
    let params = Text::from_string(String::new(alloc));
    Ok(Some(Hub::new(alloc, 3, 100, params, files)?))
}

// Two children, each on a thread of its own.
fn two_threads<R: Threads + Wait + Sync>(
    rt: &R,
    keep: &Keep<Hub>,
    second: Seat<Hub>,
    third: Seat<Hub>,
) -> (LaneEnd, LaneEnd)
    requires second { IsLane keep.now second × IsFresh second }
    requires third { IsLane keep.now third × IsFresh third }
    ensures { IsKept keep.now second result.0.0 × IsKept keep.now third result.1.0 }
{
    join(
        rt,
        || -> LaneEnd
            requires { IsLane keep.now second × IsFresh second }
            ensures { IsKept keep.entry.now second result.0 }
        { child(rt, keep, second) },
        || -> LaneEnd
            requires { IsLane keep.now third × IsFresh third }
            ensures { IsKept keep.entry.now third result.0 }
        { child(rt, keep, third) },
    )
}

// And the master on a third.
fn three_threads<R: Threads + Wait + Sync>(
    rt: &R,
    alloc: Global,
    keep: &Keep<Hub>,
    first: Seat<Hub>,
    second: Seat<Hub>,
    third: Seat<Hub>,
) -> (LaneEnd, (LaneEnd, LaneEnd))
    requires first { IsLane keep.now first × IsFresh first }
    requires second { IsLane keep.now second × IsFresh second }
    requires third { IsLane keep.now third × IsFresh third }
    ensures first { IsKept keep.now first result.0.0 }
    ensures others { IsKept keep.now second result.1.0.0 × IsKept keep.now third result.1.1.0 }
{
    join(
        rt,
        || -> LaneEnd
            requires { IsLane keep.now first × IsFresh first }
            ensures { IsKept keep.entry.now first result.0 }
        { master(rt, alloc, keep, first) },
        || -> (LaneEnd, LaneEnd)
            requires { IsSync R.row × IsLane keep.now second × IsFresh second × IsLane keep.now third × IsFresh third }
            ensures { IsKept keep.entry.now second result.0.0 × IsKept keep.entry.now third result.1.0 }
        { two_threads(rt, keep, second, third) },
    )
}

fn are_sent<T: Send>() {}

// A hub, its calls and what it answers cross threads.
fn cross() {
    are_sent::<Hub>();
    are_sent::<HubCall>();
    are_sent::<Acted>();
    are_sent::<HubHeld>();
}

/// A master and two children, from the opening of their job to its end: the master makes 19 calls and each child 6.
pub fn job<R: Threads + Wait + Sync>(rt: &R, alloc: Global) -> Result<String, NoMemory> {
    cross();
    match open(alloc)? {
        Some(hub) => run(rt, alloc, hub),
        None => Ok(String::from_str(alloc, "cannot be opened")?),
    }
}

// How many entries there are, and which lanes were told that the job is done.
fn told(alloc: Global, ended: &Ended<Hub>, done: (bool, bool, bool)) -> Result<String, NoMemory> {
    let (entries, many) = (ended.entries, ended.story.journal().len());
    let (a, b, c) = done;
    Ok(format!(in alloc; "{entries} entries, {many} in the journal, done {a} {b} {c}")?)
}

fn run<R: Threads + Wait + Sync>(rt: &R, alloc: Global, hub: Hub) -> Result<String, NoMemory>
    requires { OpensThree (journal_of hub) }
{
    let (keep, mut first) = Keep::begin(alloc, hub, 3)?;
    let Ok(second) = keep.split(&mut first) else {
        unreachable!()
    };
    let Ok(third) = keep.split(&mut first) else {
        unreachable!()
    };
    let (first, (second, third)) = three_threads(rt, alloc, &keep, first, second, third);
    let done = (first.1, second.1, third.1);
    let Ok(others) = pair(alloc, second.0, third.0) else {
        let_go(first);
        let_go(keep);
        return Err(NoMemory);
    };
    let ended = end(keep, first.0, others);
    let said = told(alloc, &ended, done);
    let_go(ended);
    said
}
