//! Expressions with their types: names and operators are resolved, and conversions are written.
use crate::{Function, Sort};
use mos_text::SourceText;
use mos_tree::{AggregateOperator, Index, UnaryOperator};
use sqlite_items::{Boxed, Items};

/// Where a name is declared.
#[derive(Clone, Copy)]
pub enum Where {
    /// In the routine that it stands in.
    Own,
    /// In the model.
    Model,
    /// In the header of a loop or aggregate that it stands in.
    Index,
}

/// What an operator between two values does.
#[derive(Clone, Copy)]
pub enum Operation {
    Times,
    Div,
    Mod,
    /// The sum of integers.
    Add,
    /// The difference of integers.
    Subtract,
    /// Two texts, one behind the other.
    Join,
    /// Two lists, one behind the other.
    Chain,
    /// The union of sets.
    Unite,
    /// The members of two sets that are in both.
    Meet,
    /// The members of a set that are not in another.
    Without,
    /// The range from an integer to another.
    Span,
    Equal,
    NotEqual,
    Less,
    AtMost,
    Greater,
    AtLeast,
    In,
    NotIn,
    And,
    Or,
}

/// An expression with its type.
#[derive(Drop)]
pub enum Typed {
    /// An expression without a type; a checked source has none.
    Wrong,
    Integer(i32),
    Text(SourceText),
    Truth(bool),
    Constant(Sort, Where, SourceText),
    /// A variable, parameter, formal or index name.
    Name(Sort, Where, SourceText),
    /// The value that a function will give.
    Returned(Sort),
    /// A cell of an array, with whether that is a dynamic one.
    Cell {
        sort: Sort,
        dynamic: bool,
        place: Where,
        name: SourceText,
        indexes: Items<Typed>,
    },
    /// A field of a record, by its number from 0.
    Field(Sort, Boxed<Typed>, u32),
    /// A call of a function of the source.
    Routine(Sort, SourceText, Items<Typed>),
    /// A call of a function of the library.
    Library(Sort, Function, Items<Typed>),
    Set(Sort, Items<Typed>),
    List(Sort, Items<Typed>),
    /// `if(a, b, c)`
    If(Sort, Boxed<Typed>, Boxed<Typed>, Boxed<Typed>),
    Unary(UnaryOperator, Boxed<Typed>),
    Binary(Sort, Operation, Boxed<Typed>, Boxed<Typed>),
    /// A range made into a set.
    AsSet(Boxed<Typed>),
    /// The printed form of a value, as a text.
    Show(Boxed<Typed>),
    Aggregate(Sort, AggregateOperator, Index<Typed>, Boxed<Typed>),
    Count(Index<Typed>),
}
