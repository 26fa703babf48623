//! A crew that never fails.
ghost use Rattle.std.specs.Prelude.{◌≡◌, false};

use crate::crew::Crew;

/// A crew whose count of faults is always 0. A start that the machine refuses is want of memory to it.
#[derive(Clone, Copy, Debug, Drop)]
pub struct SureCrew;

impl SureCrew {
    /// The crew.
    pub fn new() -> SureCrew {
        SureCrew
    }
}

impl Crew for SureCrew {
    ghost faults = { λ _. 0 };

    fn allowed(&self, starts: usize) -> usize {
        starts
    }

    fn take_note(&mut self, _starts: usize) {}

    fn is_fault(&mut self) -> bool
        ensures never { result ≡ false }
    {
        false
    }
}
