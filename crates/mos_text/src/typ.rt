//! Types of the language.
use crate::Text;
use sqlite_items::{Boxed, Items};

/// A type of the language, one variant for each tag of an image's table of types, and the types of
/// `{}` and `[]`.
#[derive(Debug, Drop)]
pub enum Typ {
    Integer,
    Boolean,
    Str,
    Model,
    Event,
    Range,
    /// A set of such members.
    Set(Boxed<Typ>),
    /// A list of such members.
    List(Boxed<Typ>),
    /// An array: whether its cells are made as they are written, the types of its 1 to 8 indexes,
    /// and that of its cells.
    Array {
        dynamic: bool,
        indexes: Items<Typ>,
        cell: Boxed<Typ>,
    },
    /// A record: the names of its fields and, in the same order, their types.
    Record {
        names: Items<Text>,
        types: Items<Typ>,
    },
    /// The type of `{}`, a set whose member type is not known. It stands in no image.
    EmptySet,
    /// The type of `[]`, a list whose member type is not known. It stands in no image.
    EmptyList,
}
