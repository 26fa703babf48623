//! The crew of the system: the threads that the machine gives.
ghost use Rattle.std.specs.Prelude.{◌≡◌, ◌≤◌, true};
ghost use Rattle.mos_text.specs.Faults.{Rose};

use crate::crew::Crew;

/// A crew that counts the starts which the machine refused.
#[derive(Debug, Drop)]
pub struct ThreadCrew {
    faults: u64,
}

impl ThreadCrew {
    /// A crew that was refused no start yet.
    pub fn new() -> ThreadCrew
        ensures { ⟦<ThreadCrew as Crew>⟧.faults result ≡ 0 }
    {
        ThreadCrew { faults: 0 }
    }

    /// How many starts were refused.
    pub fn faults(&self) -> u64
        ensures { result ≡ ⟦<ThreadCrew as Crew>⟧.faults self.now }
    {
        self.faults
    }
}

impl Crew for ThreadCrew {
    ghost faults = { λ crew. crew.faults };

    fn allowed(&self, starts: usize) -> usize {
        starts
    }

    fn take_note(&mut self, _starts: usize) {}

    fn is_fault(&mut self) -> bool {
        self.faults = self.faults.saturating_add(1);
        true
    }
}
