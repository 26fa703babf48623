//! What is kept for runs, so that each can be given to a lane and can end without memory.
ghost use Rattle.std.specs.Prelude.{◌≡◌, ◌<◌, Some, None, length, slice_get, slice_set, vec_capacity, IfOk, OnOk, IsOk, IsTrue};
ghost use Rattle.hub_core.specs.Keeping.{room_for, wanted_for, kept_after, StartsWith, OnlyRunsStart};
ghost use Rattle.hub_core.specs.Room.{takes_no_memory};

use job_calls::{Call, Reply};
use mos_text::{NoMemory, Text};
use std::alloc::Global;

/// What is kept for a run.
#[derive(Drop)]
pub(crate) enum Kept {
    /// Room for its claim and its end, and its parameter text for the entry and the reply of the claim.
    Unclaimed { entry: Text, reply: Text },
    /// Room for its end.
    Claimed,
    /// Nothing any more: it has ended.
    Ended,
}

impl Kept {
    /// What is kept for a run that starts with this parameter text.
    pub(crate) fn unclaimed(alloc: Global, params: &Text) -> Result<Kept, NoMemory>
        ensures { IfOk result (λ kept. kept ≡ Kept.Unclaimed params.now params.now) }
    {
        let entry = params.copy(alloc)?;
        let reply = params.copy(alloc)?;
        Ok(Kept::Unclaimed { entry, reply })
    }

    /// How many entries there is to be room for.
    pub(crate) fn room(&self) -> usize
        ensures { result ≡ room_for self.now }
    {
        match self {
            Kept::Unclaimed { .. } => 2,
            Kept::Claimed => 1,
            Kept::Ended => 0,
        }
    }
}

/// The same of a run that may start.
pub(crate) fn wanted_for(kept: &Option<Kept>) -> usize
    ensures { result ≡ wanted_for kept.now }
{
    match kept {
        None => 0,
        Some(kept) => kept.room(),
    }
}

/// What is to be kept for the run that starts by the call, if one does.
pub(crate) fn start_with(
    alloc: Global,
    call: &Call,
    reply: &Reply,
) -> Result<Option<Kept>, NoMemory>
    requires { OnlyRunsStart call.now reply.now }
    ensures starts { IfOk result (λ kept. StartsWith call.now reply.now kept) }
    ensures none { IsTrue (takes_no_memory call.now) → IfOk result (λ kept. kept ≡ None) }
    ensures sure { IsTrue (takes_no_memory call.now) → IsOk result }
{
    match (call, reply) {
        (Call::Run { params, .. }, Reply::Started { .. }) => Ok(Some(Kept::unclaimed(
            alloc, params,
        )?)),
        _ => Ok(None),
    }
}

/// Makes a place for what is kept for a run that may start.
pub(crate) fn make_place(runs: &mut Vec<Kept>, kept: &Option<Kept>) -> Result<(), NoMemory>
    ensures same { runs.new.items ≡ runs.old.items }
    ensures place { OnOk result ((k : Kept) → kept.now ≡ Some k
        → length runs.new.items < vec_capacity runs.new) }
    ensures sure { kept.now ≡ None → IsOk result }
{
    match kept {
        None => Ok(()),
        Some(_) => Ok(runs.reserve(1)?),
    }
}

/// Keeps this for the next run, if one starts.
pub(crate) fn add(runs: &mut Vec<Kept>, kept: Option<Kept>)
    requires { (k : Kept) → kept ≡ Some k → length runs.old.items < vec_capacity runs.old }
    ensures { runs.new.items ≡ kept_after runs.old.items kept }
{
    if let Some(kept) = kept
        && runs.push(kept).is_err()
    {
        unreachable!();
    }
}

/// Puts another thing in the place of what is kept for the run, and gives that.
pub(crate) fn swap(runs: &mut Vec<Kept>, run: u32, kept: Kept) -> Kept
    requires { run < length runs.old.items }
    ensures was { slice_get runs.old.items run ≡ Some result }
    ensures set { runs.new.items ≡ slice_set runs.old.items run kept }
{
    std::mem::replace(&mut runs[run as usize], kept)
}
