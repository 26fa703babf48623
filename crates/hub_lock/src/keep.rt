//! The lock, and the calls of its lanes.

use crate::lock::Lock;
use crate::story::Story;
use std::marker::Model;

mod calls;
mod ends;

/// A lock over one story, which lanes share by reference from their own threads.
#[derive(Drop)]
pub struct Keep<S: Story> {
    lock: Lock<S>,
    lanes: u32,
}

impl<S: Story> Model for Keep<S> {
    ghost use Rattle.std.specs.Prelude.{◌≤◌};
    ghost use Rattle.hub_lock.specs.Seats.{KeepState};

    ghost Value = { KeepState };

    ghost view = { λ k. record { lock = k.lock.table.shared.table_id; lanes = k.lanes } };

    ghost invariant = { λ k. k.lanes ≤ 64 };
}

/// A refused call: how many entries the lane had seen by then, and the refusal.
#[derive(Drop)]
pub struct Held<S: Story> {
    pub seen: u32,
    pub held: S::Held,
}

/// What a closed lock gives: the story, and the number of its entries.
#[derive(Drop)]
pub struct Ended<S> {
    pub story: S,
    pub entries: u32,
}
