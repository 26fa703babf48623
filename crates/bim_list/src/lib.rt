//! The listing of an image's code: a line for each instruction.
#![tactic(auto)]

pub mod laws;
mod listing;

pub use listing::list_code;
