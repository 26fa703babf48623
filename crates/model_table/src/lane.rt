//! A lane, as a journal tells of it.

/// A lane.
#[derive(Clone, Copy, Drop)]
pub(crate) struct Lane {
    /// The run that it holds.
    pub(crate) held: Option<u32>,
    /// It was told that the job is done.
    pub(crate) done: bool,
}

impl Lane {
    /// A lane of which nothing was told.
    pub(crate) const UNKNOWN: Lane = Lane {
        held: None,
        done: false,
    };
}
