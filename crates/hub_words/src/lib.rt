//! Words on a journal, which the hub's answers look up: how many runs there are, which of them are
//! live, who holds a pipe. `Lookups` says them, each by the definition that it computes; a journal
//! as a plain list finds them by scanning.
#![tactic(auto)]

mod blocks;
mod entry_tests;
mod events;
mod files;
mod fitting;
mod given;
mod jobs;
mod lookups;
mod models;
mod pipes;
mod runs;
mod scanning;
mod weights;

pub use blocks::written_at;
pub use events::{Event, event_at, exit_code};
pub use files::file_at;
pub use lookups::Lookups;
pub use models::compiled_to;
pub use runs::{params_opened, params_started};
pub use weights::{FULL_WEIGHT, is_full_with, less_call};
