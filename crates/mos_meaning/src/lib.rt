//! What a model means: definitions, computed on small examples.
//!
//! `specs/` says of each expression its value, of each statement its effect, of each model its
//! meaning: output, calls, ticks and end. It says when a journal with its run lines follows from its
//! sources.
#![tactic(auto)]

mod examples;
mod laws;

pub use examples::{
    courses, forms_to_come, fresh_sets, hello_follows, meanings, meanings_of_loops, refused_lines,
};
pub use laws::working_models;
