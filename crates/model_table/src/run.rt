//! A run, as a journal tells of it.
use job_calls::End;

/// A run.
#[derive(Clone, Copy, Drop)]
pub(crate) struct Run {
    /// The place of the entry that started it.
    pub(crate) start: Option<u32>,
    /// The place, in the list of files, of its source.
    pub(crate) source: Option<u32>,
    /// How it ended.
    pub(crate) end: Option<End>,
    /// Its model was asked to stop while it was the model's current run and live.
    pub(crate) asked: bool,
    /// It was answered that it is to end: it may only finish.
    pub(crate) over: bool,
}

impl Run {
    /// A run of which nothing was told.
    pub(crate) const UNKNOWN: Run = Run {
        start: None,
        source: None,
        end: None,
        asked: false,
        over: false,
    };
}
