//! Calls that are counted, some of which are to fail.
ghost use Rattle.std.specs.Prelude.{◌≡◌, ◌↔◌, IsTrue, Contains};
ghost use Rattle.mos_text.specs.Calls.{calls_of, after_one, FailsNext};

use std::marker::Model;

/// Calls of one kind, numbered from 1, and the numbers of those that are to fail.
#[derive(Debug, Drop)]
pub(crate) struct FailingCalls {
    made: u64,
    failing: Vec<u32>,
}

impl Model for FailingCalls {
    ghost use Rattle.mos_text.specs.Calls.{Calls, calls_code};

    ghost Value = { Calls };

    ghost coded = { calls_code };

    ghost view = { λ n. record { made = n.made; failing = n.failing.items } };
}

impl FailingCalls {
    pub(crate) fn new(failing: Vec<u32>) -> FailingCalls
        ensures { result ≡ calls_of failing.items }
    {
        FailingCalls { made: 0, failing }
    }

    /// Counts one call, and says whether it is to fail.
    pub(crate) fn next_fails(&mut self) -> bool
        ensures fails { IsTrue result ↔ FailsNext self.old }
        ensures counted { self.new ≡ after_one self.old }
    {
        self.made = self.made.saturating_add(1);
        holds(self.failing.as_slice(), self.made)
    }
}

/// Whether the number is among these.
fn holds(numbers: &[u32], wanted: u64) -> bool
    ensures { IsTrue result ↔ Contains numbers.now wanted }
{
    numbers.iter().any(|number| u64::from(*number) == wanted)
}
