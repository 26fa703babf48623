//! Positions in a journal.

/// A position in a journal, from 0.
#[derive(Clone, Copy, Debug, PartialEq, Drop)]
pub struct Place(pub u32);
