//! What is asked of a source beyond its grammar: that each of its pieces is of a form that can be run,
//! that each name has a value before it is used, and that `break` and `next` stand in loops.
#![tactic(auto)]

mod built;
mod form;
mod laws;
mod names;
mod unknown;

pub use built::not_built;
pub use laws::checked_models;
pub use names::{CheckFault, check};
