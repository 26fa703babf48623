//! Types of the language, each small enough to be copied.
use mos_text::SourceText;
use mos_value::MemberType;
use sqlite_items::Items;

/// A type of the language. Records and arrays are numbers of the tables of a `Scope`: what is written
/// twice with the same parts has one number there.
#[derive(Clone, Copy)]
pub enum Sort {
    Integer,
    Boolean,
    Text,
    Model,
    Event,
    Range,
    /// A set of such members.
    Set(MemberType),
    /// A list of such members.
    List(MemberType),
    /// The type of `{}`, which fits any set.
    EmptySet,
    /// The type of `[]`, which fits any list.
    EmptyList,
    /// The array type of this number.
    Array(u32),
    /// The record type of this number.
    Record(u32),
}

/// The parts of a record type: its fields' names and, in the same order, their types.
#[derive(Drop)]
pub struct RecordSort {
    pub names: Items<SourceText>,
    pub sorts: Items<Sort>,
}

/// The parts of an array type.
#[derive(Drop)]
pub struct ArraySort {
    /// Whether its cells are made as they are written.
    pub dynamic: bool,
    /// The types of its indexes, 1 to 8.
    pub indexes: Items<MemberType>,
    pub cell: Sort,
}
