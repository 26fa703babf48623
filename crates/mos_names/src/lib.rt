//! Names in the order in which they were first noted, each found by its hash and not by a search.
#![tactic(auto)]

mod names;

pub use names::Names;
