//! How a job ends, and what its journal then says of each run: what the lane that was given the run
//! was told.
ghost use Rattle.std.specs.Prelude.{◌≡◌, ◌+◌, [], ◌∷◌, length, All, IfOk};
ghost use Rattle.job_calls.specs.Legal.{IsLegal};
ghost use Rattle.hub_core.specs.Hubs.{journal_of};
ghost use Rattle.hub_lock.specs.Seats.{lane, seats_made, IsSeatOf};
ghost use Rattle.hub_lock.specs.Calls.{InOrder};
ghost use Rattle.tests_threads.specs.Endings.{TellsRuns};

use hub_core::Hub;
use hub_lock::{Ended, Keep, Seat};
use job_laws::laws;
use mos_text::{NoMemory, let_go};
use std::alloc::Global;

/// A list of it alone.
pub fn one<T: Drop>(alloc: Global, item: T) -> Result<Vec<T>, NoMemory>
    ensures { IfOk result (λ list. list.items ≡ item ∷ []) }
{
    let mut list = Vec::new(alloc);
    list.push(item)?;
    Ok(list)
}

/// Both in one list.
pub fn pair<T: Drop>(alloc: Global, one: T, other: T) -> Result<Vec<T>, NoMemory>
    ensures { IfOk result (λ both. both.items ≡ one ∷ other ∷ []) }
{
    let mut both = Vec::new(alloc);
    if both.reserve(2).is_err() {
        let_go(one);
        let_go(other);
        return Err(NoMemory);
    }
    both.push(one)?;
    both.push(other)?;
    Ok(both)
}

/// Ends the lock. The journal says of each run what the lane that was given it was told, and nothing
/// else: these calls, these replies, this end.
pub fn end(keep: Keep<Hub>, first: Seat<Hub>, others: Vec<Seat<Hub>>) -> Ended<Hub>
    requires own { IsSeatOf keep first × All (λ other. IsSeatOf keep other) others.items }
    requires lanes { (lane first ≡ 0) × InOrder others.items }
    requires all { length others.items + 1 ≡ seats_made first }
    ensures legal { IsLegal (journal_of result.story) }
    ensures first { TellsRuns first (journal_of result.story) }
    ensures others { All (λ other. TellsRuns other (journal_of result.story)) others.items }
    ensures count { result.entries ≡ length (journal_of result.story) }
{
    laws::one_lane_a_run();
    keep.close(first, others)
}
