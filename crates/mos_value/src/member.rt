//! What the members of a set or list can be.

/// The type of the members of a set or list, which those that are there do not tell: there may be
/// none.
#[derive(Clone, Copy, Debug, Drop)]
pub enum MemberType {
    Integer,
    Boolean,
    Str,
}
