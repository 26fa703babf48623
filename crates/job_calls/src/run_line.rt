//! What a report and a lane keep of a run.
use crate::call::Call;
use crate::end::End;
use mos_text::{Blob, Text};

/// How a run stands in a report: it ended, or it still waits on a call that was not ready.
#[derive(Debug, Drop)]
pub enum RunEnd {
    Ended(End),
    Waiting(Call),
}

/// What a report says of one run.
#[derive(Debug, Drop)]
pub struct RunLine {
    /// The name of the file that is the run's source.
    pub source: Text,
    pub end: RunEnd,
    pub ticks: u32,
    /// The instructions that were begun.
    pub steps: u64,
    pub output: Blob,
}

/// What a lane keeps of a run that it has finished.
#[derive(Debug, Drop)]
pub struct LaneRun {
    pub run: u32,
    pub end: End,
    pub ticks: u32,
    pub steps: u64,
    pub output: Blob,
}
