//! The events of a journal: which run each goes to, and which of them the run has not taken.
#![tactic(auto)]

mod deed;
mod index;
mod queue;
mod queues;
mod run;
mod steps;
mod telling;

pub use queues::EventQueue;
