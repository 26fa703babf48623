//! A crew that refuses starts which are listed beforehand.
ghost use Rattle.std.specs.Prelude.{◌≡◌, ℕ, ◌<◌, ◌≤◌, true, IsTrue, ◌↔◌, Contains};
ghost use Rattle.mos_text.specs.Faults.{Rose};
ghost use Rattle.mos_text.specs.Calls.{calls_of, one_more};
ghost use Rattle.lane_crew.specs.Refusing.{later, Refuses};

use crate::crew::Crew;
use std::marker::Model;

/// A crew that refuses by list. Its starts are numbered from 1, as long as it lives.
#[derive(Debug, Drop)]
pub struct MemCrew {
    made: u64,
    failing: Vec<u32>,
    faults: u64,
}

impl Model for MemCrew {
    ghost use Rattle.lane_crew.specs.Refusing.{Refusals, refusals_code};

    ghost Value = { Refusals };

    ghost coded = { refusals_code };

    ghost view = { λ c. record {
      starts = record { made = c.made; failing = c.failing.items };
      faults = c.faults;
    } };
}

impl MemCrew {
    /// A crew that refuses the starts of these numbers.
    pub fn new(failing: Vec<u32>) -> MemCrew
        ensures starts { result.starts ≡ calls_of failing.items }
        ensures faults { result.faults ≡ 0 }
    {
        MemCrew {
            made: 0,
            failing,
            faults: 0,
        }
    }

    /// How many starts were refused, by list or by the machine.
    pub fn faults(&self) -> u64
        ensures { result ≡ self.now.faults }
    {
        self.faults
    }

    /// Whether the start behind so many more is to be refused.
    fn refuses(&self, starts: usize) -> bool
        ensures { IsTrue result ↔ Refuses self.now.starts starts }
    {
        let number = self.made.saturating_add(starts as u64).saturating_add(1);
        holds(self.failing.as_slice(), number)
    }
}

/// Whether the number is among these.
fn holds(numbers: &[u32], wanted: u64) -> bool
    ensures { IsTrue result ↔ Contains numbers.now wanted }
{
    numbers.iter().any(|number| u64::from(*number) == wanted)
}

impl Crew for MemCrew {
    ghost faults = { λ c. c.faults };

    fn allowed(&self, starts: usize) -> usize
        ensures within { result ≤ starts }
        ensures before { (n : ℕ) → n < result → ¬ (Refuses self.now.starts n) }
        ensures listed { result < starts → Refuses self.now.starts result }
    {
        for n in 0..starts {
            if self.refuses(n) {
                return n;
            }
        }
        starts
    }

    fn take_note(&mut self, starts: usize)
        ensures starts { self.new.starts ≡ later self.old.starts starts }
        ensures faults { self.new.faults ≡ self.old.faults }
    {
        self.made = self.made.saturating_add(starts as u64);
    }

    fn is_fault(&mut self) -> bool
        ensures always { result ≡ true }
        ensures starts { self.new.starts ≡ self.old.starts }
        ensures faults { self.new.faults ≡ one_more self.old.faults }
        ensures later { self.old.faults ≤ self.new.faults }
        ensures counted { result ≡ true → Rose self.old.faults self.new.faults }
    {
        self.faults = self.faults.saturating_add(1);
        true
    }
}
