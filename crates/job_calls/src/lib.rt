//! What the runs of a job say to the hub, what it answers, and what both leave behind.
//!
//! Every run of a model talks to one hub. A `Call` goes in, a `Reply` comes out, and the two
//! stand together in an `Entry` of one journal. All meaning that runs share is a function of that
//! journal: `specs/` says which calls fit it, what the answer to a call is, and which journals are
//! legal. The run lines of a report stand here too, since the journal is checked against them.
#![tactic(auto)]

mod call;
mod end;
mod entry;
mod reply;
mod run_line;

pub use call::{Call, Way};
pub use end::End;
pub use entry::{Entry, Listed};
pub use reply::{Answer, Reply};
pub use run_line::{LaneRun, RunEnd, RunLine};
