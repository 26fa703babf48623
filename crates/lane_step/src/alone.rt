//! The job of one run that makes no call.
ghost use Rattle.std.specs.Prelude.{◌≡◌, ◌≢◌, ◌<◌, ◌^◌, ◌∷◌, [], List, Option, IfOk, Some};
ghost use Rattle.bim_code.specs.Code.{code_size};
ghost use Rattle.job_calls.specs.Legal.{CanOpen, IsMaster};
ghost use Rattle.job_calls.specs.Runs.{finish_of};
ghost use Rattle.mos_meaning.specs.Follows.{Behaviour, FollowsSources, end_of};
ghost use Rattle.bim_machine.specs.Courses.{course_of};
ghost use Rattle.bim_code.specs.Rules.{KeepsTicks};
ghost use Rattle.run_state.specs.Stops.{Stuck};
ghost use Rattle.mos_vm.specs.Courses.{stop_of};
ghost use Rattle.lane_step.specs.Alone.{opening_with, IsOwnEnd};
ghost use Rattle.lane_step.specs.Lines.{line_of, IsFirstName};
ghost use Rattle.lane_step.specs.Schedule.{schedule_of};
ghost use Rattle.lane_step.specs.Whole.{IsWhole, HadMemory};

use crate::schedule::schedule;
use bim_code::Image;
use job_calls::{End, Entry, Listed, RunEnd, RunLine};
use mos_text::{NoMemory, Text};
use mos_vm::{RunResult, Stop, run};
use sqlite_items::Items;
use std::alloc::Global;

/// A job that came to its end: its journal, a line for each run, and how run 0 ended.
#[derive(Debug, Drop)]
pub struct Stepped {
    pub journal: Items<Entry>,
    pub lines: Items<RunLine>,
    pub end: End,
}

/// Runs the image of the first of these files with this parameter text. It makes no call.
pub fn run_alone(
    alloc: Global,
    image: &Image,
    lanes: u32,
    budget: u32,
    params: Text,
    files: Items<Listed>,
) -> Result<Stepped, NoMemory>
    requires opens { CanOpen (opening_with lanes budget params files) }
    requires keeps { KeepsTicks image.now }
    requires small { code_size image.now.code < 2 ^ 30 }
    requires never_stuck { (course_of image.now params [] budget).outcome.stop ≢ Stuck }
    ensures schedule { IfOk result (λ s.
        s.journal ≡ schedule_of (opening_with lanes budget params files) s.end) }
    ensures whole { IfOk result (λ s. IsWhole (opening_with lanes budget params files) s.journal) }
    ensures follows { IfOk result (λ s. (others : List (Option Behaviour))
        → FollowsSources s.journal s.lines (Some (course_of image.now) ∷ others)) }
    ensures finish { IfOk result (λ s. finish_of 0 s.journal ≡ Some s.end) }
    ensures own_end { IfOk result (λ s. IsOwnEnd s.end) }
    ensures had_memory { IfOk result (λ s. HadMemory s.journal) }
{
    let ran = run(alloc, image, &params, budget)?;
    let end = end_by(ran.stop);
    let name = first_name(alloc, files.as_slice())?;
    let journal = schedule(alloc, lanes, budget, params, files, end)?;
    let lines = lines(alloc, name, end, ran)?;
    Ok(Stepped {
        journal,
        lines,
        end,
    })
}

/// The end of a run that stopped so.
fn end_by(stop: Stop) -> End
    requires { stop_of stop ≢ Stuck }
    ensures end { end_of (stop_of stop) ≡ Some result }
    ensures own { IsOwnEnd result }
{
    match stop {
        Stop::Exited(code) => End::Code(code),
        Stop::Failed(kind) => End::Fault(kind),
        Stop::Spent => End::Spent,
        Stop::Stuck => unreachable!(),
    }
}

/// The name of the first file.
fn first_name(alloc: Global, files: &[Listed]) -> Result<Text, NoMemory>
    requires { IsMaster files.now }
    ensures { IfOk result (IsFirstName files.now) }
{
    match files {
        [file, ..] => file.name.copy(alloc),
        [] => unreachable!(),
    }
}

/// The one line of the report.
fn lines(alloc: Global, name: Text, end: End, ran: RunResult) -> Result<Items<RunLine>, NoMemory>
    ensures { IfOk result (λ lines. lines ≡ line_of name end ran ∷ []) }
{
    let RunResult {
        output,
        ticks,
        steps,
        ..
    } = ran;
    let mut lines = Items::new(alloc);
    lines.push(RunLine {
        source: name,
        end: RunEnd::Ended(end),
        ticks,
        steps,
        output,
    })?;
    Ok(lines)
}
