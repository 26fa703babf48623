//! Where a name stands: what it may be, and what is wrong there, differs by side.

/// Where a name stands.
#[derive(Clone, Copy)]
pub enum Side {
    /// In an expression, where a value is taken from it.
    Value,
    /// On the left of an assignment.
    Target,
    /// On the left of `::`.
    Filled,
}
