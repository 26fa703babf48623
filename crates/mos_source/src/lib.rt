//! Statements and sources: the tree of the pieces that spell one.
//!
//! What one piece is stands in a `Form`. A source is a list of such pieces; blocks stand in one
//! another at most 100 deep, the model not counted. Pieces without a tree have a faulty piece,
//! behind the longest run of pieces with which some source begins.
#![tactic(auto)]

mod adding;
mod closing;
mod continuing;
mod fault;
mod frame;
mod growing;
mod laws;
mod machine;
mod opening;
mod place;
mod reader;

pub use fault::PieceFault;
pub use laws::{pieces_are_read_one_way, pieces_break_by_productions};
pub use reader::source;
