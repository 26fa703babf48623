//! Lists that grow: what an index keeps of a journal, entry by entry.
//!
//! Here stand the laws of the words that indexes keep, each for a list with one element more (`specs/`), the
//! count of a list, and things by number in a vector that grows by need.
#![tactic(auto)]

mod count;
mod numbered;

pub use count::one_more;
pub use numbered::{at, cover, cover_told, put};
