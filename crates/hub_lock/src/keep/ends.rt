//! How a lock gets more lanes, and how it ends.
ghost use Rattle.std.specs.Prelude.{◌≡◌, ◌+◌, ◌<◌, [], length, All, IsOk, IfOk};
ghost use Rattle.hub_lock.specs.Seats.{seen, marks, lane, seats_made, most_lanes, own_list, IsSeatOf};
ghost use Rattle.hub_lock.specs.Calls.{InOrder, IsEnd};

use super::{Ended, Keep};
use crate::rule::Deal;
use crate::seat::Seat;
use crate::story::Story;
use mos_text::NoMemory;

impl<S: Story> Keep<S> {
    /// The next lane's seat, which has seen as much as lane 0's seat. It takes no memory.
    pub fn split(&self, seat: &mut Seat<S>) -> Result<Seat<S>, NoMemory>
        requires own { IsSeatOf self.now seat.old }
        requires first { lane seat.old ≡ 0 }
        requires room { seats_made seat.old < most_lanes self.now }
        ensures succeeds { IsOk result }
        ensures same { IsSeatOf self.now seat.new × (lane seat.new ≡ 0) }
        ensures same_seen { seen seat.new ≡ seen seat.old }
        ensures same_marks { marks seat.new ≡ marks seat.old }
        ensures counted { seats_made seat.new ≡ seats_made seat.old + 1 }
        ensures new { IfOk result (λ new. IsSeatOf self.now new) }
        ensures new_lane { IfOk result (λ new. lane new ≡ seats_made seat.old) }
        ensures new_seen { IfOk result (λ new. seen new ≡ seen seat.old) }
        ensures new_marks { IfOk result (λ new. marks new ≡ []) }
        ensures new_own { IfOk result (λ new. own_list S.Story new ≡ []) }
    {
        let lane = seat.made;
        let raw = self.lock.table.shared.split_seat::<Deal>(&mut seat.raw);
        seat.made += 1;
        Ok(Seat { raw, lane, made: 0 })
    }

    /// Ends the lock, and gives the story with the number of its entries.
    pub fn close(self, seat: Seat<S>, others: Vec<Seat<S>>) -> Ended<S>
        requires own { IsSeatOf self seat × All (λ other. IsSeatOf self other) others.items }
        requires lanes { (lane seat ≡ 0) × InOrder others.items }
        requires all { length others.items + 1 ≡ seats_made seat }
        ensures journal { IsEnd S.lane_of S.sound seat others.items (S.list result.story) }
        ensures entries { result.entries ≡ length (S.list result.story) }
    {
        let Keep { lock, lanes: _ } = self;
        let Seat {
            mut raw,
            lane: _,
            made: _,
        } = seat;
        for other in others {
            let Seat {
                raw: gone,
                lane: _,
                made: _,
            } = other;
            lock.join(&mut raw, gone);
        }
        let story = lock.end(raw);
        let entries = story.entries();
        Ended { story, entries }
    }
}
