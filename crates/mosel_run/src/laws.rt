//! Laws of the definitions: functions that do nothing, whose contracts they are.
ghost use Rattle.mosel_run.specs.Laws.{OneOpening, NobodyQuit, EveryRunEnded, EveryLaneDone, LineForEachRun, EachRunHasASource, EachLineNamesItsSource, LastPutStays, OthersStay};
ghost use Rattle.mosel_run.specs.Laws.{SourcesAreJudged, NoSourceIsNeither};
ghost use Rattle.mosel_run.specs.Laws.{AcceptedHaveOneTree, RefusedHaveOneFault};

use mos_parse::sources_are_parsed_one_way;

/// What a whole job, and one that follows its sources, has and cannot lack.
pub fn whole_jobs()
    ensures one_opening { OneOpening }
    ensures nobody_quit { NobodyQuit }
    ensures every_run_ended { EveryRunEnded }
    ensures every_lane_done { EveryLaneDone }
    ensures line_for_each_run { LineForEachRun }
    ensures each_run_has_a_source { EachRunHasASource }
    ensures each_line_names_its_source { EachLineNamesItsSource }
{}

/// Of several puts the last under a name counts, and no other name is changed.
pub fn last_puts_stay()
    ensures last { LastPutStays }
    ensures others { OthersStay }
{}

/// Every source is accepted or refused, never both, never neither: with one tree, or at one line
/// and for one reason. Which of the two it is follows from its tree or its fault.
pub fn sources_are_judged()
    ensures judged { SourcesAreJudged }
    ensures never_neither { NoSourceIsNeither }
    ensures accepted { AcceptedHaveOneTree }
    ensures refused { RefusedHaveOneFault }
{
    sources_are_parsed_one_way();
}
