//! What a claim of a lane comes to.
ghost use Rattle.std.specs.Prelude.{◌≡◌, None};
ghost use Rattle.job_calls.specs.declared.call.Call.TheVariants.{Claim};
ghost use Rattle.job_calls.specs.Answers as answers;
ghost use Rattle.hub_words.specs.Small.{IsSmall};
ghost use Rattle.hub_core.specs.Turns.{turn_answer, IsNextRun};

use hub_words::Lookups;

/// What a claim of a lane comes to.
#[derive(Clone, Copy, Drop)]
pub(crate) enum Turn {
    /// The lane is given this run.
    Gives(u32),
    /// It is told that the job is done.
    Done,
    /// It may claim again.
    NotYet,
    /// The job was ended before its time.
    Shut,
}

/// What a claim of this lane comes to.
pub(crate) fn turn_of<J: Lookups>(journal: &J, lane: u32) -> Turn
    requires { IsSmall (J.list journal.now) }
    ensures answer { answers.answer_of (J.list journal.now) lane None Claim
        ≡ turn_answer (J.list journal.now) result }
    ensures next { IsNextRun (J.list journal.now) result }
{
    if journal.has_quit() {
        return Turn::Shut;
    }
    if !journal.is_claimed(0) && lane != 0 {
        return Turn::NotYet;
    }
    match journal.unclaimed() {
        Some(run) => Turn::Gives(run),
        None => if journal.is_finished(0) {
            Turn::Done
        } else {
            Turn::NotYet
        },
    }
}
