//! The names that can be seen at a place of a source.
use crate::{ArraySort, Entries, RecordSort, Sort, Value};
use mos_text::SourceText;
use sqlite_items::Items;

/// What a routine takes and gives.
#[derive(Drop)]
pub struct Signature {
    /// The types of its formals.
    pub formals: Items<Sort>,
    /// The type of a function's result; none for a procedure.
    pub result: Option<Sort>,
    /// Whether only its `forward` has been read so far.
    pub forward: bool,
}

/// What a name is declared as.
#[derive(Drop)]
pub enum Role {
    Constant(Sort, Value),
    Parameter(Sort),
    Variable(Sort),
    Formal(Sort),
    /// A record type; none while its fields are being read.
    Record(Option<Sort>),
    Routine(Signature),
}

/// A declared name.
#[derive(Drop)]
pub struct Entry {
    pub name: SourceText,
    pub role: Role,
}

/// An index name of a loop or aggregate, with its type where it has one.
#[derive(Drop)]
pub struct Bound {
    pub name: SourceText,
    pub sort: Option<Sort>,
}

/// The names that can be seen at a place of a source, with what else its rules look at there.
#[derive(Drop)]
pub struct Scope {
    /// Whether the module of jobs is used.
    pub jobs: bool,
    /// Whether an assignment may declare a variable.
    pub implicit: bool,
    /// The names of all routines of the source, those to come among them.
    pub routines: Items<SourceText>,
    /// The record types so far.
    pub records: Items<RecordSort>,
    /// The array types so far.
    pub arrays: Items<ArraySort>,
    /// The names of the model, in the order in which they were declared; of one name the last counts.
    pub model: Entries,
    /// Those of the routine.
    pub own: Entries,
    /// The index names of the loops that are open here.
    pub bound: Items<Bound>,
    /// Whether the place stands in a routine.
    pub inside: bool,
    /// Whether it stands in a loop.
    pub in_loop: bool,
    /// The type of the result of the function that it stands in.
    pub result: Option<Sort>,
    /// The line of the piece that is looked at, from 1.
    pub line: u32,
}
