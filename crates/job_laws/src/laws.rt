//! What holds of every legal journal: functions that do nothing, whose contracts are the laws.
ghost use Rattle.job_laws.specs.Truth.{RepliesAreTrue, ReadsOfFiles, ReadsOfBlocks, BlocksAreNotListed};
ghost use Rattle.job_laws.specs.Order.{AskedStops, StaysAsked};
ghost use Rattle.job_laws.specs.Lanes.{AnswersFit, RunsFit, ClaimedOnce, ClaimedBefore, OneLaneARun, AllEnd, NoQuit};
ghost use Rattle.job_laws.specs.Growth.{FewEntries, FewFiles, Grows, MomentsGrow, RunsHaveSources, SourcesStay, GivenInOrder};
ghost use Rattle.job_laws.specs.Laws.{LegalKeepsLaws};

/// A reply that the hub gives fits its call, as a machine wants it.
pub fn answers_fit()
    ensures { AnswersFit }
{}

/// All that a run was answered fits what it called, where every reply can be held.
pub fn runs_fit()
    ensures { RunsFit }
{}

/// A run takes its events in the order in which they came, skips none and takes none twice; what is
/// taken out of a pipe is what was put, all of it where the end was told; a run that was asked to
/// stop is told so, and finishes.
pub fn legal_keeps_laws()
    ensures { LegalKeepsLaws }
{}

/// After an entry by which a run was asked to stop, the run is told so and only finishes.
pub fn asked_stops()
    ensures { AskedStops }
{}

/// A run that was asked to stop is asked in every longer journal.
pub fn stays_asked()
    ensures { StaysAsked }
{}

/// Each reply says what is true: a run that is given has a source that was accepted; an event that is
/// taken was sent to the taker, or is the end of a run that it started; what is read is the last
/// write, or the listed file; what is taken out of a pipe, with what was taken before, is what was
/// put, and at its end all of that was taken.
pub fn replies_are_true()
    ensures { RepliesAreTrue }
{}

/// What is read with place 0 is a listed data file that nobody wrote to.
pub fn reads_of_files()
    ensures { ReadsOfFiles }
{}

/// What is read of a block in memory has a place above 0.
pub fn reads_of_blocks()
    ensures { ReadsOfBlocks }
{}

/// No file is listed under the name of a block in memory.
pub fn blocks_are_not_listed()
    ensures { BlocksAreNotListed }
{}

/// A run is given to a lane at most once.
pub fn claimed_once()
    ensures { ClaimedOnce }
{}

/// A run calls only from a lane that was given it.
pub fn claimed_before()
    ensures { ClaimedBefore }
{}

/// What the journal says of a run is what the lane that was given it did for it.
pub fn one_lane_a_run()
    ensures { OneLaneARun }
{}

/// Where each lane came to its end, each run was given to a lane and has finished.
pub fn all_end()
    ensures { AllEnd }
{}

/// Where no lane has ended the job before its time, nobody has.
pub fn no_quit()
    ensures { NoQuit }
{}

/// Each run has a source that was accepted, and a parameter text.
pub fn runs_have_sources()
    ensures { RunsHaveSources }
{}

/// A run keeps its source and its parameter text as the journal grows.
pub fn sources_stay()
    ensures { SourcesStay }
{}

/// A legal journal has fewer than 1,100,000 entries, so that a place always fits 32 bits.
pub fn few_entries()
    ensures { FewEntries }
{}

/// A legal journal lists at most 128 files.
pub fn few_files()
    ensures { FewFiles }
{}

/// An entry that follows makes a legal journal longer.
pub fn grows()
    ensures { Grows }
{}

/// Entries behind others are moments behind theirs.
pub fn moments_grow()
    ensures { MomentsGrow }
{}

/// Lanes are given the runs in order.
pub fn given_in_order()
    ensures { GivenInOrder }
{}
