//! A journal and its runs as the text of a report. Each function adds one part of the text; they
//! are cut as the text's definition is.
ghost use Rattle.std.specs.Prelude.{◌≡◌, ◌++◌, length, IfOk, OnOk};
ghost use Rattle.hub_text.specs.ReportText.{caller_text, counts_text, entry_line, entry_lines, output_text, report_text, run_end_text, run_head, run_line, run_lines};

use crate::report::Report;
use job_calls::{Entry, RunEnd, RunLine};
use mos_text::{Blob, NoMemory};
use std::alloc::{AllocError, Global};

mod calls;
mod fields;
mod replies;

use calls::{put_call, put_end};
pub use fields::put_number;
use replies::put_reply;

/// The text of a report.
#[tactic(auto, unfolding(crate::specs::ReportText::report_text))]
pub fn write_report(alloc: Global, report: &Report) -> Result<Blob, NoMemory>
    ensures { IfOk result (λ text. text ≡ report_text report.now.entries report.now.runs) }
{
    let runs = report.runs.as_slice();
    let entries = report.entries.as_slice();
    let mut out = Vec::new(alloc);
    out.extend_from_slice(b"mosel report 1\n")?;
    put_runs(&mut out, runs)?;
    out.extend_from_slice(b"journal ")?;
    put_number(&mut out, entries.len())?;
    out.push(b'\n')?;
    put_entries(&mut out, entries)?;
    out.extend_from_slice(b"end\n")?;
    Ok(Blob::from_vec(out))
}

fn put_runs(out: &mut Vec<u8>, runs: &[RunLine]) -> Result<(), AllocError>
    ensures { OnOk result (out.new.items ≡ out.old.items ++ run_lines 0 runs.now) }
{
    for (number, line) in runs.iter().enumerate() {
        put_run(out, number, line)?;
    }
    Ok(())
}

/// A run's line, its output and a newline.
#[tactic(auto, unfolding(crate::specs::ReportText::run_line))]
fn put_run(out: &mut Vec<u8>, number: usize, line: &RunLine) -> Result<(), AllocError>
    ensures { OnOk result (out.new.items ≡ out.old.items ++ run_line number line.now) }
{
    let output = line.output.as_bytes();
    put_run_head(out, number, line.source.as_bytes())?;
    put_run_end(out, &line.end)?;
    put_counts(out, line.ticks, line.steps, output.len())?;
    put_output(out, output)
}

#[tactic(auto, unfolding(crate::specs::ReportText::run_head))]
fn put_run_head(out: &mut Vec<u8>, number: usize, source: &[u8]) -> Result<(), AllocError>
    ensures { OnOk result (out.new.items ≡ out.old.items ++ run_head number source.now) }
{
    out.extend_from_slice(b"run ")?;
    put_number(out, number)?;
    out.push(b' ')?;
    out.extend_from_slice(source)?;
    Ok(out.push(b' ')?)
}

#[tactic(auto, unfolding(crate::specs::ReportText::output_text))]
fn put_output(out: &mut Vec<u8>, output: &[u8]) -> Result<(), AllocError>
    ensures { OnOk result (out.new.items ≡ out.old.items ++ output_text output.now) }
{
    out.push(b'\n')?;
    out.extend_from_slice(output)?;
    Ok(out.push(b'\n')?)
}

#[tactic(auto, unfolding(crate::specs::ReportText::run_end_text))]
fn put_run_end(out: &mut Vec<u8>, end: &RunEnd) -> Result<(), AllocError>
    ensures { OnOk result (out.new.items ≡ out.old.items ++ run_end_text end.now) }
{
    match end {
        RunEnd::Ended(end) => put_end(out, *end),
        RunEnd::Waiting(call) => {
            out.extend_from_slice(b"waiting ")?;
            put_call(out, call)
        }
    }
}

#[tactic(auto, unfolding(crate::specs::ReportText::counts_text))]
fn put_counts(
    out: &mut Vec<u8>,
    ticks: u32,
    steps: u64,
    output_length: usize,
) -> Result<(), AllocError>
    ensures { OnOk result (out.new.items ≡ out.old.items ++ counts_text ticks steps output_length) }
{
    out.extend_from_slice(b" ticks ")?;
    put_number(out, ticks)?;
    out.extend_from_slice(b" steps ")?;
    put_number(out, steps)?;
    out.extend_from_slice(b" out ")?;
    put_number(out, output_length)
}

fn put_entries(out: &mut Vec<u8>, entries: &[Entry]) -> Result<(), AllocError>
    ensures { OnOk result (out.new.items ≡ out.old.items ++ entry_lines 0 entries.now) }
{
    for (place, entry) in entries.iter().enumerate() {
        put_entry(out, place, entry)?;
    }
    Ok(())
}

#[tactic(auto, unfolding(crate::specs::ReportText::entry_line))]
fn put_entry(out: &mut Vec<u8>, place: usize, entry: &Entry) -> Result<(), AllocError>
    ensures { OnOk result (out.new.items ≡ out.old.items ++ entry_line place entry.now) }
{
    put_number(out, place)?;
    out.push(b' ')?;
    put_number(out, entry.lane)?;
    out.push(b' ')?;
    put_caller(out, entry.run)?;
    out.push(b' ')?;
    put_call(out, &entry.call)?;
    out.extend_from_slice(b" -> ")?;
    put_reply(out, &entry.reply)?;
    Ok(out.push(b'\n')?)
}

#[tactic(auto, unfolding(crate::specs::ReportText::caller_text))]
fn put_caller(out: &mut Vec<u8>, caller: Option<u32>) -> Result<(), AllocError>
    ensures { OnOk result (out.new.items ≡ out.old.items ++ caller_text caller) }
{
    match caller {
        None => Ok(out.push(b'-')?),
        Some(run) => put_number(out, run),
    }
}
