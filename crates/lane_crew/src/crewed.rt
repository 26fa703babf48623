//! How a crew's lanes have ended.

/// The ends of all lanes, in order, the first lane's first.
#[derive(Debug, Drop)]
pub enum Crewed<E> {
    /// All lanes have run.
    Ended(Vec<E>),
    /// A start was refused, and the count of faults rose.
    Refused(Vec<E>),
    /// Memory was wanting; where it was for the ends themselves there are none.
    NoMemory(Vec<E>),
}
