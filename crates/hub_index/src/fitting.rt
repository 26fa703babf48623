//! Which calls a lane may make, by the run that it holds.
ghost use Rattle.std.specs.Prelude.{◌≡◌, ◌||◌, List};
ghost use Rattle.job_calls.specs.declared.entry.Entry.{Entry};
ghost use Rattle.job_calls.specs.declared.call.Way.TheVariants.{Reads, Writes};
ghost use Rattle.job_calls.specs.Entries as entries;
ghost use Rattle.job_calls.specs.Entries.{own_entries};
ghost use Rattle.job_calls.specs.Fitting as fitting;
ghost use Rattle.job_calls.specs.Fitting.{exchange_of};
ghost use Rattle.job_calls.specs.Legal.{IsLegal};
ghost use Rattle.hub_index.specs.Index.{IsIndexOf};

use crate::index::HubIndex;
use job_calls::{Call, Way};
use job_laws::laws;
use mos_text::Text;

/// The caller is this run.
fn is_run(run_number: u32, run: Option<u32>) -> bool
    ensures { result ≡ entries.is_run run_number run }
{
    match run {
        None => false,
        Some(run) => run == run_number,
    }
}

fn is_quit(call: &Call) -> bool
    ensures { result ≡ entries.is_quit call.now }
{
    matches!(call, Call::Quit)
}

fn is_claim(call: &Call) -> bool
    ensures { result ≡ entries.is_claim call.now }
{
    matches!(call, Call::Claim)
}

fn is_finish(call: &Call) -> bool
    ensures { result ≡ entries.is_finish call.now }
{
    matches!(call, Call::Finish(_))
}

fn is_for_lane(call: &Call) -> bool
    ensures { result ≡ fitting.is_for_lane call.now }
{
    matches!(call, Call::Open { .. } | Call::Claim | Call::Quit)
}

impl HubIndex {
    /// The run holds one of the ends of the pipe.
    fn holds_one(&self, run: u32, name: &Text) -> bool
        ensures { (journal : List Entry) → IsIndexOf self.now journal
            → result ≡ (fitting.holds Reads name.now (exchange_of run journal)
            || fitting.holds Writes name.now (exchange_of run journal)) }
    {
        self.pipes.holds(Way::Reads, name, run) || self.pipes.holds(Way::Writes, name, run)
    }

    /// The run holds the end of a pipe that its call wants.
    fn ends_fit(&self, run: u32, call: &Call) -> bool
        ensures { (journal : List Entry) → IsIndexOf self.now journal
            → result ≡ fitting.ends_fit (exchange_of run journal) call.now }
    {
        match call {
            Call::PipePut { name, .. } => self.pipes.holds(Way::Writes, name, run),
            Call::PipeTake { name } => self.pipes.holds(Way::Reads, name, run),
            Call::PipeClose { name } => self.holds_one(run, name),
            Call::Open { .. } => true,
            Call::Claim => true,
            Call::Quit => true,
            Call::Finish(_) => true,
            Call::Compile { .. } => true,
            Call::Load { .. } => true,
            Call::Run { .. } => true,
            Call::Wait => true,
            Call::Next => true,
            Call::Peek => true,
            Call::Drop => true,
            Call::IsEmpty => true,
            Call::Send { .. } => true,
            Call::Status { .. } => true,
            Call::ExitCode { .. } => true,
            Call::Stop { .. } => true,
            Call::Unload { .. } => true,
            Call::Read { .. } => true,
            Call::Write { .. } => true,
            Call::PipeOpen { .. } => true,
        }
    }

    /// The run may make the call, by what it called and was told.
    fn may_call(&self, run: u32, call: &Call) -> bool
        ensures { (journal : List Entry) → IsIndexOf self.now journal
            → result ≡ fitting.may_call (exchange_of run journal) call.now }
    {
        !self.models.is_over(run) && self.ends_fit(run, call)
    }

    /// The run that the lane holds may make the call, or ends by it.
    fn may_act(&self, run: u32, call: &Call) -> bool
        ensures { (journal : List Entry) → IsIndexOf self.now journal
            → result ≡ (entries.is_finish call.now || fitting.may_call (exchange_of run journal) call.now) }
    {
        is_finish(call) || self.may_call(run, call)
    }

    fn run_fits(&self, lane: u32, run: u32, call: &Call) -> bool
        ensures { (journal : List Entry) → IsIndexOf self.now journal → IsLegal journal
            → result ≡ fitting.run_fits (own_entries lane journal) run call.now }
    {
        laws::one_lane_a_run();
        if !is_run(run, self.models.held_run(lane)) {
            return false;
        }
        self.may_act(run, call)
    }

    fn may_claim(&self, lane: u32) -> bool
        ensures { (journal : List Entry) → IsIndexOf self.now journal
            → result ≡ fitting.may_claim (own_entries lane journal) }
    {
        self.models.held_run(lane).is_none() && !self.models.was_done(lane)
    }

    /// The lane may make the call, for itself or for the run.
    pub(crate) fn call_fits(&self, lane: u32, run: Option<u32>, call: &Call) -> bool
        ensures { (journal : List Entry) → IsIndexOf self.now journal → IsLegal journal
            → result ≡ fitting.call_fits (own_entries lane journal) run call.now }
    {
        match run {
            None => is_quit(call) || (is_claim(call) && self.may_claim(lane)),
            Some(run) => !is_for_lane(call) && self.run_fits(lane, run, call),
        }
    }
}
