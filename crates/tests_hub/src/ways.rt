//! Other ways to call the hub: a claim and an end by calls of their own, and a call that is made again.
use crate::call_words::call_of;
use crate::job::{answered, ask, words};
use hub_core::{Acted, Held, Hub};
use job_calls::{Call, End};
use mos_text::{NoMemory, let_go};
use std::alloc::Global;

/// The text for what the hub answered, which is let go.
fn said(alloc: Global, answer: Result<Acted, Held>) -> Result<String, NoMemory> {
    let said = answered(alloc, &answer);
    let_go(answer);
    said
}

/// What a claim of the lane comes to.
pub fn give(alloc: Global, hub: &mut Hub, lane: u32) -> Result<String, NoMemory> {
    if !hub.fits(lane, None, &Call::Claim) {
        return words(alloc, "unfit");
    }
    said(alloc, hub.claim(lane))
}

/// What is replied to the end of the run.
pub fn end(
    alloc: Global,
    hub: &mut Hub,
    lane: u32,
    run: u32,
    end: End,
) -> Result<String, NoMemory> {
    if hub.has_quit() || !hub.fits(lane, Some(run), &Call::Finish(end)) {
        return words(alloc, "unfit");
    }
    said(alloc, Ok(hub.finish(lane, run, end)))
}

/// What is answered to the call; it is made again where memory was wanting, by which the hub is not to change.
pub fn insist(
    alloc: Global,
    hub: &mut Hub,
    lane: u32,
    run: Option<u32>,
    words: &[&str],
) -> Result<String, NoMemory> {
    let call = call_of(alloc, words)?;
    insist_on(alloc, hub, lane, run, call)
}

fn insist_on(
    alloc: Global,
    hub: &mut Hub,
    lane: u32,
    run: Option<u32>,
    call: Call,
) -> Result<String, NoMemory> {
    if !hub.fits(lane, run, &call) {
        let_go(call);
        return words(alloc, "unfit");
    }
    let (entries, room) = (hub.count(), hub.spare_entries());
    match hub.act(lane, run, call) {
        Err(Held::NoMemory(call)) => if hub.count() == entries && hub.spare_entries() >= room {
            again(alloc, hub, lane, run, call)
        } else {
            let_go(call);
            words(alloc, "changed")
        },
        answer => said(alloc, answer),
    }
}

fn again(
    alloc: Global,
    hub: &mut Hub,
    lane: u32,
    run: Option<u32>,
    call: Call,
) -> Result<String, NoMemory> {
    let answer = ask(alloc, hub, lane, run, call)?;
    Ok(format!(in alloc; "again {}", answer.as_str())?)
}
