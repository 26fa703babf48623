//! The size count of a source, within 64 bits: where it is above, it stays at the greatest number.
#![tactic(auto)]

mod declarations;
mod expressions;
mod sources;
mod statements;

pub use sources::size_count;
