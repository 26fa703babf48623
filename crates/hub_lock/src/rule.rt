//! What a seat knows, the rule that every step keeps, and the kinds of step.

use crate::mark::Mark;
use crate::story::Story;
use atomic_table::{Join, Play, Split, TableRule};
use std::collections::LinkedList;
use std::marker::PhantomData;
use std::snapshot::Snapshot;

/// How far a seat is in a call. A ticket counts from 0 without end; the words of the lock have it
/// modulo 2^64.
pub enum Stage {
    Idle,
    Waits(u64),
    Holds(u64),
    Spent,
}

/// What a seat knows. No value of it is made.
pub struct View<E> {
    pub lane: u64,
    pub seen: LinkedList<E>,
    // Of each turn of the seat, in order.
    pub marks: LinkedList<Mark>,
    pub stage: Stage,
    // Of lane 0's seat: the number of seats made.
    pub made: u64,
    // Of lane 0's seat: what is kept of the seats of lanes 1, 2 and so on that were joined into it.
    pub joined: LinkedList<Part<E>>,
}

/// What is kept of a seat that was joined into lane 0's: what it had seen, and its marks. No value of it
/// is made.
pub struct Part<E> {
    pub seen: LinkedList<E>,
    pub marks: LinkedList<Mark>,
}

/// The lock's rule, for the story `S`.
pub struct Rule<S> {
    story: PhantomData<S>,
}

impl<S: Story> TableRule<Option<S>, View<S::Entry>, Snapshot<S>> for Rule<S> {
    ghost use Rattle.hub_lock.specs.Inner.Rule.{HasJournal, first_view};

    ghost holds = { λ _. HasJournal S.list S.lane_of S.sound };

    ghost first = { λ about. first_view (S.list about.value) };
}

pub struct Draw;

impl<S, E> Play<Option<S>, View<E>> for Draw {
    ghost use Rattle.hub_lock.specs.Inner.Steps.{DrawTells};

    ghost then = { DrawTells };
}

pub struct Look<S> {
    story: PhantomData<S>,
}

impl<S: Story> Play<Option<S>, View<S::Entry>> for Look<S> {
    ghost use Rattle.hub_lock.specs.Inner.Steps.{LookTells};

    ghost then = { LookTells S.list S.lane_of S.sound };
}

pub struct Count<S> {
    story: PhantomData<S>,
}

impl<S: Story> Play<Option<S>, View<S::Entry>> for Count<S> {
    ghost use Rattle.hub_lock.specs.Inner.Steps.{CountTells};

    ghost then = { CountTells S.list };
}

pub struct Pass;

impl<S, E> Play<Option<S>, View<E>> for Pass {
    ghost use Rattle.hub_lock.specs.Inner.Steps.{PassTells};

    ghost then = { PassTells };
}

pub struct Deal;

impl<E> Split<View<E>> for Deal {
    ghost use Rattle.hub_lock.specs.Inner.Steps.{first_after_split, new_view};

    ghost left = { first_after_split };

    ghost right = { new_view };
}

pub struct Merge;

impl<E> Join<View<E>> for Merge {
    ghost use Rattle.hub_lock.specs.Inner.Steps.{after_join, spent_view};

    ghost both = { after_join };

    ghost spent = { spent_view };
}
