//! The pipes of a journal: who holds their ends, their sessions, and the bytes that nobody has taken.
#![tactic(auto)]

mod ends;
mod finishes;
mod hold;
mod index;
mod lookups;
mod pipe;
mod pipes;
mod state;
mod untaken;
mod words;

pub use pipe::Pipe;
