//! The state of a run of a model: definitions, which the meaning of a model and the machine share.
//!
//! A run is given replies and a budget of ticks from outside. Its state has the values that it holds,
//! what it wrote, the calls that were answered and the ticks that it took.
#![tactic(auto)]

pub mod examples;
mod laws;

pub use laws::refused_texts;
