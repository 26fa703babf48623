//! How a lock begins, and how a lane calls the story under it.
ghost use Rattle.std.specs.Prelude.{◌≡◌, ◌+◌, ◌<◌, ◌≤◌, [], length, All, None, Some, IfOk, IfErr};
ghost use Rattle.hub_lock.specs.LaneEntries.{StartsWith};
ghost use Rattle.hub_lock.specs.Seats.{seen, marks, turns, lane, seats_made, most_lanes, IsSeatOf, IsSameSeat};
ghost use Rattle.hub_lock.specs.Calls.{IsAllowed, HasActed, HasHeld};

use super::{Held, Keep};
use crate::lock::Lock;
use crate::seat::Seat;
use crate::story::Story;
use atomic_table::Table;
use crossbeam_utils::Backoff;
use mos_text::NoMemory;
use std::alloc::Global;
use std::snapshot::Snapshot;
use std::sync::Wait;

impl<S: Story> Keep<S> {
    /// A lock over the story, for at most `lanes` lanes, and lane 0's seat, which has seen all of the
    /// story's entries.
    pub fn begin(alloc: Global, story: S, lanes: u32) -> Result<(Keep<S>, Seat<S>), NoMemory>
        requires lanes { (0 < lanes) × (lanes ≤ 64) }
        requires begun { 0 < length (S.list story) }
        requires first_lane { All (λ entry. S.lane_of entry ≡ 0) (S.list story) }
        ensures keep { IfOk result (λ r. (most_lanes r.0 ≡ lanes) × IsSeatOf r.0 r.1) }
        ensures seat { IfOk result (λ r. (lane r.1 ≡ 0) × (seats_made r.1 ≡ 1)) }
        ensures seen { IfOk result (λ r. seen r.1 ≡ S.list story) }
        ensures marks { IfOk result (λ r. marks r.1 ≡ []) }
    {
        let about = Snapshot::of(&story);
        let count = u64::from(story.entries());
        let mut slots = Vec::with_capacity(alloc, 1)?;
        slots.push(Some(story))?;
        let Ok((table, raw)) = Table::new(alloc, &[0, 0, count], slots, &about) else {
            return Err(NoMemory);
        };
        let seat = Seat {
            raw,
            lane: 0,
            made: 1,
        };
        let lock = Lock { table };
        Ok((Keep { lock, lanes }, seat))
    }

    /// Waits for the lane's turn, perhaps for good, makes the call once, and passes the turn.
    pub fn act<R: Wait>(
        &self,
        rt: &R,
        seat: &mut Seat<S>,
        call: S::Call,
    ) -> Result<S::Acted, Held<S>>
        requires own { IsSeatOf self.now seat.old }
        requires allowed { IsAllowed S.Story seat.old call }
        ensures same { IsSameSeat seat.old seat.new }
        ensures turn { turns seat.new ≡ turns seat.old + 1 }
        ensures marks { StartsWith (marks seat.new) (marks seat.old) }
        ensures acted { IfOk result (λ a. HasActed S.Story seat.old seat.new call a) }
        ensures held { IfErr result (λ h. HasHeld S.Story seat.old seat.new call h.seen h.held) }
        ensures not_ready { IfErr result
            (λ h. (same : S.Call) → S.waits h.held ≡ Some same → same ≡ call) }
    {
        let mut story = self.lock.enter(rt, &mut seat.raw);
        match story.step(seat.lane, call) {
            Ok(acted) => {
                self.lock.leave_with_entry(&mut seat.raw, story);
                Ok(acted)
            }
            Err(held) => {
                let seen = story.entries();
                self.lock.leave(&mut seat.raw, story);
                Err(Held { seen, held })
            }
        }
    }

    /// Makes the call, and again after each refusal that means "not ready", pausing in between, perhaps
    /// for good.
    pub fn act_when_ready<R: Wait>(
        &self,
        rt: &R,
        seat: &mut Seat<S>,
        mut call: S::Call,
    ) -> Result<S::Acted, Held<S>>
        requires own { IsSeatOf self.now seat.old }
        requires allowed { IsAllowed S.Story seat.old call }
        ensures same { IsSameSeat seat.old seat.new }
        ensures turn { turns seat.old < turns seat.new }
        ensures marks { StartsWith (marks seat.new) (marks seat.old) }
        ensures acted { IfOk result (λ a. HasActed S.Story seat.old seat.new call a) }
        ensures held { IfErr result (λ h. HasHeld S.Story seat.old seat.new call h.seen h.held) }
        ensures ready { IfErr result (λ h. S.waits h.held ≡ None) }
    {
        let backoff = Backoff::new();
        for _ in rt.forever() {
            match self.act(rt, seat, call) {
                Ok(acted) => return Ok(acted),
                Err(Held { seen, held }) => match S::again(held) {
                    Ok(same) => call = same,
                    Err(held) => return Err(Held { seen, held }),
                },
            }
            backoff.snooze();
        }
        unreachable!()
    }
}
