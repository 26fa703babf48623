//! What the program writes: the report of a job, and the one line in place of it where there is none.
//!
//! The definitions of these texts stand in `specs/`: how texts, bytes and numbers are in_quotes, the
//! text of a call, of a reply, of a whole report, and the error lines.
#![tactic(auto)]

mod error_lines;
pub mod examples;
mod report;
mod report_writer;

pub use error_lines::{
    write_bad_input, write_missing, write_read_fault, write_too_large, write_usage, write_verdict,
};
pub use job_calls::{RunEnd, RunLine};
pub use report::Report;
pub use report_writer::write_report;
