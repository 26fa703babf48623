//! A story that is not ready for a lane until another lane has acted.
use crate::early::Early;
use hub_lock::Story;
use mos_text::NoMemory;
use std::alloc::Global;
use std::marker::Model;

/// The lanes in the order in which they came. No lane comes twice in a row, and each says with its call how
/// often it came.
#[derive(Drop)]
pub struct Relay {
    lanes: Vec<u32>,
}

impl Model for Relay {
    ghost use Rattle.std.specs.Prelude.{ℕ, ◌^◌, ◌<◌, List, length};

    ghost Value = { List ℕ };

    ghost view = { λ r. r.lanes.items };

    ghost invariant = { λ r. length r.lanes.items < 2 ^ 32 };
}

impl Relay {
    ghost use Rattle.std.specs.Prelude.{◌≡◌, [], ◌∷◌, IfOk};

    /// A relay that lane 0 has begun.
    pub fn new(alloc: Global) -> Result<Relay, NoMemory>
        ensures { IfOk result (λ r. r ≡ 0 ∷ []) }
    {
        let mut lanes = Vec::new(alloc);
        lanes.push(0)?;
        Ok(Relay { lanes })
    }

    /// Whether no two entries in a row are of one lane.
    pub fn alternates(&self) -> bool {
        self.lanes
            .windows(2)
            .all(|pair| pair.first() != pair.last())
    }
}

impl Story for Relay {
    ghost use Rattle.std.specs.Prelude.{◌^◌, ◌<◌, length, Some, None};
    ghost use Rattle.tests_threads.specs.declared.early.Early.TheVariants.{NotYet, Full, NoMemory};
    ghost use Rattle.tests_threads.specs.Relays.{Answers, Refuses, Allows};

    type Call = u32;

    type Acted = u32;

    type Held = Early;

    type Entry = u32;

    ghost list = { λ r. r };

    ghost lane_of = { λ e. e };

    ghost sound = { λ log. length log < 2 ^ 32 };

    ghost answers = { Answers };

    ghost refuses = { Refuses };

    ghost allowed = { Allows };

    ghost waits = { elim [ NotYet number ↦ Some number | Full ↦ None | NoMemory ↦ None ] };

    fn step(&mut self, lane: u32, number: u32) -> Result<u32, Early> {
        if let Some(last) = self.lanes.last() {
            if *last == lane {
                return Err(Early::NotYet(number));
            }
        }
        if self.lanes.len() >= 0xffff_ffff {
            return Err(Early::Full);
        }
        if self.lanes.push(lane).is_err() {
            return Err(Early::NoMemory);
        }
        Ok(number)
    }

    fn entries(&self) -> u32 {
        self.lanes.len() as u32
    }

    fn again(held: Early) -> Result<u32, Early> {
        match held {
            Early::NotYet(number) => Ok(number),
            Early::Full => Err(Early::Full),
            Early::NoMemory => Err(Early::NoMemory),
        }
    }
}
