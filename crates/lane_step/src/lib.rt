//! A job on one thread: its lanes take turns, and one journal is written. So far its one run makes
//! no call, so that the journal is known as soon as the run has ended.
#![tactic(auto)]

mod alone;
mod schedule;

pub use alone::{Stepped, run_alone};
