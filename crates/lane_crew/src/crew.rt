//! Crews: what runs lanes on threads, and counts the starts that were refused.
ghost use Rattle.std.specs.Prelude.{◌≡◌, ℕ, ◌≤◌, true, false};
ghost use Rattle.mos_text.specs.Faults.{Rose};
ghost use Rattle.lane_crew.specs.Crews.{HasCrewed, IsRefused};

use crate::crewed::Crewed;
use crate::crewing::{Over, run_all};
use crate::lane::Lane;
use std::alloc::Global;
use std::sync::Wait;
use std::thread::Threads;

/// What runs lanes, each on a thread of its own.
///
/// A crew has a number of faults that never falls. It says how many starts it allows and what becomes of a
/// start that was refused; how lanes are run is the same for all crews.
pub trait Crew {
    /// How many starts were refused; it never falls.
    ghost faults: { Self → ℕ };

    /// Of so many starts, how many come before the first that the crew itself refuses; all where there is none.
    fn allowed(&self, starts: usize) -> usize;

    /// Takes note of so many starts, made or refused.
    fn take_note(&mut self, starts: usize)
        ensures { faults self.new ≡ faults self.old };

    /// A start was refused: whether that is a fault, which is then counted, or want of memory.
    fn is_fault(&mut self) -> bool
        ensures later { faults self.old ≤ faults self.new }
        ensures counted { result ≡ true → Rose (faults self.old) (faults self.new) }
        ensures steady { result ≡ false → faults self.new ≡ faults self.old };

    /// Starts the other lanes, runs the first on the caller's thread, and joins all: their ends, in order. The room
    /// for the ends is made before the first start.
    final fn all<R: Threads + Wait + Sync, L: Lane>(
        &mut self,
        rt: &R,
        alloc: Global,
        first: L,
        others: Vec<L>,
    ) -> Crewed<L::End>
        ensures ends { HasCrewed L.ran L.quitted first others.items result }
        ensures later { faults self.old ≤ faults self.new }
        ensures failed { IsRefused result → Rose (faults self.old) (faults self.new) }
        ensures steady { ¬ (IsRefused result) → faults self.new ≡ faults self.old }
    {
        crew_all(self, rt, alloc, first, others)
    }
}

/// The same for a crew that is named.
fn crew_all<C: Crew, R: Threads + Wait + Sync, L: Lane>(
    crew: &mut C,
    rt: &R,
    alloc: Global,
    first: L,
    others: Vec<L>,
) -> Crewed<L::End>
    ensures ends { HasCrewed L.ran L.quitted first others.items result }
    ensures later { C.faults crew.old ≤ C.faults crew.new }
    ensures failed { IsRefused result → Rose (C.faults crew.old) (C.faults crew.new) }
    ensures steady { ¬ (IsRefused result) → C.faults crew.new ≡ C.faults crew.old }
{
    let allowed = crew.allowed(others.len());
    let Some(Over { all, tried, ends }) = run_all(rt, alloc, first, others, allowed) else {
        return Crewed::NoMemory(Vec::new(alloc));
    };
    crew.take_note(tried);
    if all {
        return Crewed::Ended(ends);
    }
    if crew.is_fault() {
        Crewed::Refused(ends)
    } else {
        Crewed::NoMemory(ends)
    }
}
