//! The abstract machine, which does what an image says: definitions, and laws of them.
//!
//! The machine begins with what the tables of the image say, and goes on instruction by instruction.
//! It is given replies and a budget of ticks from outside.
#![tactic(auto)]

mod laws;

pub use laws::machine_laws;
