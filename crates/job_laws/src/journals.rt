//! Worked examples of journals: functions that do nothing, whose contracts are the examples.
ghost use Rattle.job_calls.specs.Legal.{IsLegal};
ghost use Rattle.job_laws.specs.JournalExamples.{HelloIsLegal, UnheldRun, AnotherRun, OtherLaneWaits, NotDoneYet, AfterTheEnd};
ghost use Rattle.job_laws.specs.RunExamples.{TwoRuns, SourceOfMaster, SourceOfChild, SourceOfUnloaded, ParamsOfMaster, ParamsOfChild, CallsOfMaster, RepliesOfMaster, CallsOfChild, FinishOfChild, FittingReplies, FittingFault, FaultOfItsOwn, ReplyOfAnotherCall, CodeTooLarge};
ghost use Rattle.job_laws.specs.FitExamples.{UnfitCalls, UnclaimedRun, FinishedRun, LaneIsDone, OnlyFinishes, PipesOfOthers, ClosedEnd};
ghost use Rattle.job_laws.specs.RowExamples.{files_and_nothing, NothingToRun, model_goes, EndsTell, UnloadWaits, AllIsShut, stopped_unclaimed, master_ends_first, reads_after_writes, EndsAreBusy, empty_block, TooManyBytes, OldWriter, new_session};
ghost use Rattle.job_laws.specs.HubExamples.{waits_for_child, no_lane_is_free, run_twice, runs_again, reads_last_write, takes_whole, FullPipeWaits, reader_stops, BothWait};

/// The journal of one run on one lane is legal.
pub fn hello_journal()
    ensures { HelloIsLegal }
{}

/// Entries that no hub puts behind an `Open`, and a call that is not ready there.
pub fn refused_entries()
    ensures unheld_run { UnheldRun }
    ensures another_run { AnotherRun }
    ensures other_lane_waits { OtherLaneWaits }
    ensures not_done_yet { NotDoneYet }
    ensures after_the_end { AfterTheEnd }
{}

/// What a journal says of a master and of the child that it runs.
pub fn runs_of_a_journal()
    ensures two { TwoRuns }
    ensures source_of_master { SourceOfMaster }
    ensures source_of_child { SourceOfChild }
    ensures source_of_unloaded { SourceOfUnloaded }
    ensures params_of_master { ParamsOfMaster }
    ensures params_of_child { ParamsOfChild }
    ensures calls_of_master { CallsOfMaster }
    ensures replies_of_master { RepliesOfMaster }
    ensures calls_of_child { CallsOfChild }
    ensures finish_of_child { FinishOfChild }
{}

/// Replies that fit a call, and some that do not.
pub fn replies_that_fit()
    ensures fitting { FittingReplies }
    ensures fault { FittingFault }
    ensures fault_of_its_own { FaultOfItsOwn }
    ensures of_another_call { ReplyOfAnotherCall }
    ensures too_large { CodeTooLarge }
{}

/// Jobs of two runs, whose journals are legal.
pub fn whole_jobs()
    ensures waits { IsLegal waits_for_child }
    ensures no_lane { IsLegal no_lane_is_free }
    ensures again { IsLegal runs_again }
    ensures blocks { IsLegal reads_last_write }
    ensures pipe { IsLegal takes_whole }
    ensures stopped { IsLegal reader_stops }
{}

/// Answers at one moment of such a job.
pub fn answers()
    ensures busy { IsLegal run_twice }
    ensures full_pipe { FullPipeWaits }
    ensures both_wait { BothWait }
{}

/// Calls that may not be made.
pub fn unfit_calls()
    ensures calls { UnfitCalls }
    ensures unclaimed { UnclaimedRun }
    ensures finished { FinishedRun }
    ensures done { LaneIsDone }
    ensures over { OnlyFinishes }
    ensures pipes { PipesOfOthers }
    ensures closed { ClosedEnd }
{}

/// Legal journals of models, stopped runs, memory and pipes.
pub fn rows_of_jobs()
    ensures files { IsLegal files_and_nothing }
    ensures model { IsLegal model_goes }
    ensures unclaimed { IsLegal stopped_unclaimed }
    ensures master_first { IsLegal master_ends_first }
    ensures memory { IsLegal reads_after_writes }
    ensures empty { IsLegal empty_block }
    ensures anew { IsLegal new_session }
{}

/// Answers that are seldom met.
pub fn rare_answers()
    ensures nothing_to_run { NothingToRun }
    ensures ends { EndsTell }
    ensures unload { UnloadWaits }
    ensures shut { AllIsShut }
    ensures busy { EndsAreBusy }
    ensures bytes { TooManyBytes }
    ensures old_writer { OldWriter }
{}
