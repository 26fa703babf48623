//! A report before it is written, or once it is read.
use job_calls::{Entry, RunLine};
use sqlite_items::Items;

/// What a report says: its runs, run 0 first, and the journal that they are of.
#[derive(Debug, Drop)]
pub struct Report {
    pub runs: Items<RunLine>,
    pub entries: Items<Entry>,
}
