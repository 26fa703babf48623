//! The indexes of a journal in one, and a journal that keeps them.
//!
//! `HubIndex` stands for a journal as each of its four indexes does. `Journal` holds the entries beside
//! it, and finds each word that the hub's answers look up without reading the entries one by one.
#![tactic(auto)]

mod fitting;
mod index;
mod journal;
mod lookups;
mod texts;

pub use index::HubIndex;
pub use journal::Journal;
