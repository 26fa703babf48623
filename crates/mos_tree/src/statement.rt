//! Statements.
use crate::{Expr, Index};
use mos_text::SourceText;
use sqlite_items::{Boxed, Items};

/// The left side of an assignment.
#[derive(Debug, Drop)]
pub enum Reference {
    Name(SourceText),
    /// `name(a, b)`
    Cell(SourceText, Items<Expr>),
    /// `name.field`
    Field(SourceText, SourceText),
    /// `name(a, b).field`
    CellField(SourceText, Items<Expr>, SourceText),
    Returned,
}

/// What stands between the two sides of an assignment.
#[derive(Clone, Copy, Debug, PartialEq, Eq)]
pub enum Assignment {
    /// `:=`
    Set,
    /// `+=`
    Add,
    /// `-=`
    Take,
}

/// The way that the data of `initializations` go.
#[derive(Clone, Copy, Debug, PartialEq, Eq)]
pub enum Direction {
    From,
    To,
}

/// A label of `initializations`, with the text behind `as`.
#[derive(Debug, Drop)]
pub struct Label {
    pub name: SourceText,
    pub shown: Option<SourceText>,
}

/// The labels of one piece.
#[derive(Debug, Drop)]
pub struct LabelGroup {
    pub line: u32,
    pub labels: Items<Label>,
}

/// `if` or `elif` with what it guards. `S` is a statement.
#[derive(Debug, Drop)]
pub struct Arm<S> {
    pub line: u32,
    pub condition: Expr,
    pub body: Items<S>,
}

/// The labels of `case` with the statement that they choose. `S` is a statement.
#[derive(Debug, Drop)]
pub struct Alternative<S> {
    pub line: u32,
    pub labels: Items<Expr>,
    pub body: S,
}

/// A statement.
#[derive(Debug, Drop)]
pub enum Statement {
    Assign {
        line: u32,
        target: Reference,
        operator: Assignment,
        value: Expr,
    },
    /// `name :: [a, b]`
    Fill {
        line: u32,
        name: SourceText,
        values: Items<Expr>,
    },
    /// `name(a, b)`, `name()` or `name`: a routine or a library procedure.
    Call {
        line: u32,
        name: SourceText,
        arguments: Items<Expr>,
    },
    /// The arm of `if` first, then those of `elif`; what stands under `else` is empty without it.
    If {
        line: u32,
        arms: Items<Arm<Statement>>,
        otherwise: Items<Statement>,
    },
    Case {
        line: u32,
        value: Expr,
        alternatives: Items<Alternative<Statement>>,
        otherwise: Items<Statement>,
    },
    Forall {
        line: u32,
        index: Index<Expr>,
        body: Boxed<Statement>,
    },
    While {
        line: u32,
        condition: Expr,
        body: Boxed<Statement>,
    },
    /// With the line of `until`, which is a piece of its own.
    Repeat {
        line: u32,
        body: Items<Statement>,
        until_line: u32,
        condition: Expr,
    },
    Do {
        line: u32,
        body: Items<Statement>,
    },
    Break {
        line: u32,
    },
    Next {
        line: u32,
    },
    Initializations {
        line: u32,
        direction: Direction,
        name: Expr,
        labels: Items<LabelGroup>,
    },
}
