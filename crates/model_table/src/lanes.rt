//! What an entry makes of lanes.
ghost use Rattle.std.specs.Prelude.{◌≡◌, ◌<◌, ℕ, Some, None, nat_eq, length, if◌then◌else◌};
ghost use Rattle.job_calls.specs.Fitting.{held_after};
ghost use Rattle.model_table.specs.Tables.{lane_told, IsLaneAfter};
ghost use Rattle.model_table.specs.Steps.{lane_of, Holds, IsDone};

use crate::lane::Lane;
use growing_lists::{at, put};
use job_calls::{Call, Entry, Reply};

/// The lane was given the run.
fn hold(lanes: &mut Vec<Lane>, number: u32, run: u32)
    requires { number < length lanes.old.items }
    ensures { Holds lanes.old.items lanes.new.items number (Some run) }
{
    let lane = at(lanes, number, Lane::UNKNOWN);
    put(
        lanes,
        number,
        Lane {
            held: Some(run),
            done: lane.done,
        },
    );
}

/// The lane holds no run any more.
fn free(lanes: &mut Vec<Lane>, number: u32)
    ensures { Holds lanes.old.items lanes.new.items number None }
{
    let lane = at(lanes, number, Lane::UNKNOWN);
    put(
        lanes,
        number,
        Lane {
            held: None,
            done: lane.done,
        },
    );
}

/// The lane was told that the job is done.
fn finish(lanes: &mut Vec<Lane>, number: u32)
    requires { number < length lanes.old.items }
    ensures { IsDone lanes.old.items lanes.new.items number }
{
    let lane = at(lanes, number, Lane::UNKNOWN);
    put(
        lanes,
        number,
        Lane {
            held: lane.held,
            done: true,
        },
    );
}

/// What the entry tells of the run that its lane holds.
fn tell_held(lanes: &mut Vec<Lane>, entry: &Entry)
    requires { (l : ℕ) → lane_told entry.now.lane entry.now.reply ≡ Some l
        → l < length lanes.old.items }
    ensures held { (l : ℕ) → (lane_of lanes.new.items l).held
        ≡ (if nat_eq entry.now.lane l
        then held_after (lane_of lanes.old.items l).held entry.now.call entry.now.reply
        else (lane_of lanes.old.items l).held) }
    ensures done { (l : ℕ) → (lane_of lanes.new.items l).done ≡ (lane_of lanes.old.items l).done }
    ensures places { length lanes.new.items ≡ length lanes.old.items }
{
    match (&entry.call, &entry.reply) {
        (Call::Finish(_), _) => free(lanes, entry.lane),
        (Call::Claim, Reply::Claimed { run, .. }) => hold(lanes, entry.lane, *run),
        _ => (),
    }
}

/// What the entry tells of its lane.
pub(crate) fn tell_lanes(lanes: &mut Vec<Lane>, entry: &Entry)
    requires { (l : ℕ) → lane_told entry.now.lane entry.now.reply ≡ Some l
        → l < length lanes.old.items }
    ensures lanes { (l : ℕ)
        → IsLaneAfter (lane_of lanes.old.items l) (lane_of lanes.new.items l) l entry.now }
    ensures places { length lanes.new.items ≡ length lanes.old.items }
{
    tell_held(lanes, entry);
    match &entry.reply {
        Reply::Done => finish(lanes, entry.lane),
        _ => (),
    }
}
