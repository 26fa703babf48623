//! What a seat keeps of each of its turns.

/// The mark of a turn: its ticket, and how many entries the list had when the turn came. Tickets count
/// from 0.
///
/// Marks are for clauses alone: no value of this type is made here.
pub struct Mark {
    pub ticket: u64,
    pub found: u64,
}
