//! Points of code: where each instruction's stack is known, the rules on stacks are kept; and the points of code whose stack is
//! empty wherever one is wanted.
#![tactic(auto)]

pub mod laws;
mod points;

pub use points::points_of;
