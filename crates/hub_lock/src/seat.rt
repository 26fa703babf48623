//! The seat of a lane: what the lane has seen of the journal.
ghost use Rattle.std.specs.Prelude.{◌≡◌};
ghost use Rattle.hub_lock.specs.Seats.{lane};

use crate::rule::View;
use crate::story::Story;
use std::marker::Model;

/// A seat of a lock, by which one lane makes its calls. It may go to another thread, and two threads
/// cannot share it.
///
/// Between two calls a seat has neither ticket nor turn.
#[derive(Drop)]
pub struct Seat<S: Story> {
    pub(crate) raw: Raw<S>,
    pub(crate) lane: u32,
    pub(crate) made: u32,
}

impl<S: Story> Model for Seat<S> {
    ghost use Rattle.hub_lock.specs.Seats.{SeatState};

    ghost Value = { SeatState S.Entry };

    ghost use Rattle.hub_lock.specs.Inner.Rests.{IsAtRest};

    ghost view = { λ s. record {
      lock = s.raw.table_id;
      lane = s.lane;
      made = s.made;
      seen = s.raw.me.0.seen;
      marks = s.raw.me.0.marks;
    } };

    ghost invariant = { λ s. IsAtRest S.lane_of s.lane s.made s.raw.me };
}

/// A seat of the lock's table.
pub(crate) type Raw<S> = atomic_table::Seat<Option<S>, View<<S as Story>::Entry>>;

impl<S: Story> Seat<S> {
    /// The number of the seat's lane: 0 for the first seat, then 1, 2 and so on, as they were split off.
    pub fn lane(&self) -> u32
        ensures { result ≡ lane self.now }
    {
        self.lane
    }
}
