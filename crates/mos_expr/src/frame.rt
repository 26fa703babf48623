//! What is open round the operand that is read, and what comes next.
use crate::operand::{Groups, Operand, Parts, WholeIndex};
use mos_text::SourceText;
use mos_tree::{AggregateOperator, BinaryOperator, Conversion, UnaryOperator};
use sqlite_items::Items;

/// Whose index is read.
#[derive(Clone, Copy)]
pub(crate) enum IndexKind {
    Aggregate(AggregateOperator),
    Count,
    /// The heading of a loop, which is read by itself.
    Loop,
}

/// What expressions with commas between them belong to.
#[derive(Drop)]
pub(crate) enum ListKind {
    Call(SourceText),
    Set,
    List,
    /// They stand alone, with no bracket round them.
    Bare,
}

/// What is open round the operand that is read.
#[derive(Drop)]
pub(crate) enum Frame {
    Bracket,
    InList(ListKind, Parts),
    /// `if`, with no, one or two of its parts.
    IfExpr,
    IfFirst(Operand),
    IfSecond(Operand, Operand),
    Convert(Conversion),
    Before(UnaryOperator),
    Between(BinaryOperator, Operand),
    /// The set of these names.
    IndexSet(IndexKind, Groups, Items<SourceText>),
    /// The condition of an index.
    IndexCondition(IndexKind, Groups),
    /// The body of an aggregate.
    Body(AggregateOperator, WholeIndex),
}

/// What comes next.
#[derive(Drop)]
pub(crate) enum Mode {
    /// An operand.
    Want,
    /// An operand, or the bracket that closes what has none.
    WantFirst,
    /// An opening bracket.
    WantOpen,
    /// The opening bracket of an index.
    WantIndex(IndexKind),
    /// What may follow a name.
    Named(SourceText),
    /// What may follow a call.
    Called(SourceText, Parts),
    /// A field of this name, or of this call.
    Dotted(SourceText),
    DottedCall(SourceText, Parts),
    /// What may follow an operand.
    After(Operand),
    /// `in`, behind `not`.
    WantIn,
    /// A name of an index.
    WantName(IndexKind, Groups, Items<SourceText>),
    /// What may follow a name of an index.
    AfterName(IndexKind, Groups, Items<SourceText>),
}
