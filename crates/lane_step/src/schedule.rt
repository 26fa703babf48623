//! The journal of a job on one thread, whose one run makes no call.
ghost use Rattle.std.specs.Prelude.{◌≡◌, ◌≤◌, IfOk};
ghost use Rattle.lane_step.specs.Schedule.{schedule_of, open_entry, claim_entry, finish_entry, done_entry};
ghost use Rattle.lane_step.specs.Alone.{opening_with};

use job_calls::{Call, End, Entry, Listed, Reply};
use mos_text::{NoMemory, Text};
use sqlite_items::Items;
use std::alloc::Global;

/// The journal of one run that ended so, on 1 to 64 lanes.
pub(crate) fn schedule(
    alloc: Global,
    lanes: u32,
    budget: u32,
    params: Text,
    files: Items<Listed>,
    end: End,
) -> Result<Items<Entry>, NoMemory>
    requires { 1 ≤ lanes }
    ensures { IfOk result (λ journal.
        journal ≡ schedule_of (opening_with lanes budget params files) end) }
{
    let claimed = params.copy(alloc)?;
    let mut journal = Items::new(alloc);
    journal.push(open(lanes, budget, params, files))?;
    journal.push(claim(claimed))?;
    journal.push(finish(end))?;
    for lane in 1..lanes {
        journal.push(done(lane))?;
    }
    journal.push(done(0))?;
    Ok(journal)
}

fn open(lanes: u32, budget: u32, params: Text, files: Items<Listed>) -> Entry
    ensures { result ≡ open_entry (opening_with lanes budget params files) }
{
    Entry {
        lane: 0,
        run: None,
        call: Call::Open {
            lanes,
            budget,
            params,
            files,
        },
        reply: Reply::Opened,
    }
}

fn claim(params: Text) -> Entry
    ensures { result ≡ claim_entry params }
{
    Entry {
        lane: 0,
        run: None,
        call: Call::Claim,
        reply: Reply::Claimed {
            run: 0,
            source: 0,
            params,
        },
    }
}

fn finish(end: End) -> Entry
    ensures { result ≡ finish_entry end }
{
    Entry {
        lane: 0,
        run: Some(0),
        call: Call::Finish(end),
        reply: Reply::Unit,
    }
}

fn done(lane: u32) -> Entry
    ensures { result ≡ done_entry lane }
{
    Entry {
        lane,
        run: None,
        call: Call::Claim,
        reply: Reply::Done,
    }
}
