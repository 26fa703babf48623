//! The last writes of a journal, by name: found by hash, and not by reading the journal.
#![tactic(auto)]

mod blocks;
mod places;

pub use blocks::Blocks;
pub use places::Places;
