//! Expressions.
use mos_text::SourceText;
use sqlite_items::{Boxed, Items};

/// An operator that stands before its operand.
#[derive(Clone, Copy, Debug, PartialEq, Eq)]
pub enum UnaryOperator {
    Minus,
    Plus,
    Not,
}

/// An operator that stands between its operands.
#[derive(Clone, Copy, Debug, PartialEq, Eq)]
pub enum BinaryOperator {
    Times,
    Div,
    Mod,
    Inter,
    Plus,
    Minus,
    Union,
    /// `..`
    Range,
    Equal,
    NotEqual,
    Less,
    AtMost,
    Greater,
    AtLeast,
    In,
    NotIn,
    And,
    Or,
}

/// A reserved word that is called with one argument.
#[derive(Clone, Copy, Debug, PartialEq, Eq)]
pub enum Conversion {
    Integer,
    Text,
}

/// An aggregate that has a body.
#[derive(Clone, Copy, Debug, PartialEq, Eq)]
pub enum AggregateOperator {
    Sum,
    Prod,
    Min,
    Max,
    Union,
    And,
    Or,
}

/// Index names that take their values from one set: `i, j in 1..3`. `E` is an expression.
#[derive(Debug, Drop)]
pub struct Group<E> {
    pub names: Items<SourceText>,
    pub set: E,
}

/// What a loop or an aggregate goes over: `i in 1..3, j in s | i<j`. `E` is an expression.
#[derive(Debug, Drop)]
pub struct Index<E> {
    pub groups: Items<Group<E>>,
    pub condition: Option<Boxed<E>>,
}

/// An expression.
#[derive(Debug, Drop)]
pub enum Expr {
    /// A literal, from 0 to 2147483647.
    Integer(i32),
    /// A literal, with its escapes read.
    Text(SourceText),
    Truth(bool),
    Name(SourceText),
    /// The value that a function will give.
    Returned,
    /// `name(a, b)` or `name()`: a call, or a cell of an array.
    Call(SourceText, Items<Expr>),
    /// `name.field`
    Field(SourceText, SourceText),
    /// `name(a, b).field` or `name().field`
    CallField(SourceText, Items<Expr>, SourceText),
    /// `{a, b}` or `{}`
    Set(Items<Expr>),
    /// `[a, b]` or `[]`
    List(Items<Expr>),
    /// `if(a, b, c)`
    If(Boxed<Expr>, Boxed<Expr>, Boxed<Expr>),
    /// `integer(a)` or `string(a)`
    Convert(Conversion, Boxed<Expr>),
    Unary(UnaryOperator, Boxed<Expr>),
    Binary(BinaryOperator, Boxed<Expr>, Boxed<Expr>),
    /// `sum(i in s) a`, and so on.
    Aggregate(AggregateOperator, Index<Expr>, Boxed<Expr>),
    /// `count(i in s)`
    Count(Index<Expr>),
}
