//! What holds of every legal journal, and worked examples of journals.
//!
//! Both are functions that do nothing: a law is the contract of one, and so is an example. Nothing
//! that runs stands here, so that the definitions below grow no heavier with each example.
#![tactic(auto)]

pub mod journals;
pub mod laws;
