//! The smallest story: lanes add amounts to one sum. It shows what a story has to say.
use crate::story::Story;
use mos_text::NoMemory;
use std::alloc::Global;
use std::marker::Model;

/// An amount, and the lane that put it.
#[derive(Clone, Copy, Debug, PartialEq)]
pub struct Put {
    pub lane: u32,
    pub amount: u64,
}

/// Why a tally refuses an amount. None of these means "not ready".
#[derive(Debug, Drop)]
pub enum Refusal {
    /// The amount is 0.
    Zero,
    /// The sum would not be below 2^64.
    TooMuch,
    /// There are 2^32 - 1 entries.
    Full,
    /// There was no memory for the entry.
    NoMemory,
}

/// Amounts in the order in which they came, and their sum. Contracts see it as the list of its puts.
#[derive(Drop)]
pub struct Tally {
    puts: Vec<Put>,
    sum: u64,
}

impl Model for Tally {
    ghost use Rattle.std.specs.Prelude.{◌≡◌, List};
    ghost use Rattle.hub_lock.specs.declared.tally.Put.{Put};
    ghost use Rattle.hub_lock.specs.Tally.{total, IsTally};

    ghost Value = { List Put };

    ghost view = { λ t. t.puts.items };

    ghost invariant = { λ t. (t.sum ≡ total t.puts.items) × IsTally t.puts.items };
}

impl Tally {
    ghost use Rattle.std.specs.Prelude.{◌≡◌, [], ◌∷◌, length, IfOk};
    ghost use Rattle.hub_lock.specs.LaneEntries.{entries_of};
    ghost use Rattle.hub_lock.specs.Tally.{total};

    /// A tally whose only entry is lane 0's, of the amount 0.
    pub fn new(alloc: Global) -> Result<Tally, NoMemory>
        ensures { IfOk result (λ t. t ≡ record { lane = 0; amount = 0 } ∷ []) }
    {
        let mut puts = Vec::new(alloc);
        puts.push(Put { lane: 0, amount: 0 })?;
        Ok(Tally { puts, sum: 0 })
    }

    /// The sum of all amounts.
    pub fn sum(&self) -> u64
        ensures { result ≡ total self.now }
    {
        self.sum
    }

    /// How many entries a lane put.
    pub fn count_of(&self, lane: u32) -> usize
        ensures { result ≡ length (entries_of (λ p. p.lane) lane self.now) }
    {
        self.puts.iter().filter(|put| put.lane == lane).count()
    }
}

impl Story for Tally {
    ghost use Rattle.std.specs.Prelude.{None};
    ghost use Rattle.hub_lock.specs.Tally.{Answers, Refuses, IsTally};

    type Call = u64;

    type Acted = u64;

    type Held = Refusal;

    type Entry = Put;

    ghost list = { λ t. t };

    ghost lane_of = { λ p. p.lane };

    ghost sound = { IsTally };

    ghost answers = { Answers };

    ghost refuses = { Refuses };

    ghost allowed = { λ _ _ _ _. Unit {0} };

    ghost waits = { λ _. None };

    fn step(&mut self, lane: u32, amount: u64) -> Result<u64, Refusal> {
        if amount == 0 {
            return Err(Refusal::Zero);
        }
        let Some(sum) = self.sum.checked_add(amount) else {
            return Err(Refusal::TooMuch);
        };
        if self.puts.len() >= 0xffff_ffff {
            return Err(Refusal::Full);
        }
        if self.puts.push(Put { lane, amount }).is_err() {
            return Err(Refusal::NoMemory);
        }
        self.sum = sum;
        Ok(sum)
    }

    fn entries(&self) -> u32 {
        self.puts.len() as u32
    }

    fn again(held: Refusal) -> Result<u64, Refusal> {
        Err(held)
    }
}
