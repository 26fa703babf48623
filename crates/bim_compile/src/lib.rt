//! The image of a model, and that it means the model: whatever the parameter text, the replies and the
//! budget, the machine does with the image what the model means.
//!
//! `specs/Compiled.antt` says what code each form becomes. What a user of the crate needs is `Means`.
#![tactic(auto)]

mod compiler;
mod context;
mod draft;
mod ends;
mod examples;
mod expressions;
mod names;
mod statements;

pub use compiler::compile;
