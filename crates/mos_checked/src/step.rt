//! Statements whose names, operators and types are resolved.
ghost use Rattle.std.specs.Prelude.{◌≡◌};
ghost use Rattle.mos_checked.specs.Steps as spec;

use mos_sorts::{Function, Operation, Sort, Typed, Where};
use mos_text::SourceText;
use mos_tree::{Direction, Index};
use sqlite_items::{Boxed, Items};

/// `if` or `elif` with what it guards. `S` is a statement.
#[derive(Drop)]
pub struct StepArm<S> {
    pub line: u32,
    pub condition: Typed,
    pub body: Items<S>,
}

/// The labels of `case` with the statement that they choose. `S` is a statement.
#[derive(Drop)]
pub struct StepAlternative<S> {
    pub line: u32,
    /// Values of the type of the value that is looked at, or ranges where that is an integer.
    pub labels: Items<Typed>,
    pub body: S,
}

/// A variable of `initializations`, with the label that its data stand under.
#[derive(Drop)]
pub struct DataLabel {
    /// In the routine or in the model.
    pub place: Where,
    pub name: SourceText,
    pub sort: Sort,
    /// The text behind `as`, or else the name.
    pub label: SourceText,
}

/// The labels of one piece.
#[derive(Drop)]
pub struct DataLabels {
    pub line: u32,
    pub labels: Items<DataLabel>,
}

/// A statement, or a declaration that does something when it is executed.
#[derive(Drop)]
pub enum Step {
    /// `a:=e`; a range that is given to a set is made into one.
    Assign {
        line: u32,
        /// A variable, a formal, a cell, a field or `returned`.
        target: Typed,
        value: Typed,
    },
    /// `a+=e` or `a-=e`, as what the operator does with the old value and the new one.
    Change {
        line: u32,
        target: Typed,
        operation: Operation,
        value: Typed,
    },
    /// `name :: [a, b]`, of a dense array.
    Fill {
        line: u32,
        target: Typed,
        values: Items<Typed>,
    },
    /// A call of a procedure of the source.
    Routine {
        line: u32,
        name: SourceText,
        arguments: Items<Typed>,
    },
    /// A call of a procedure of the library.
    Library {
        line: u32,
        function: Function,
        arguments: Items<Typed>,
    },
    /// The arm of `if` first, then those of `elif`; what stands under `else` is empty without it.
    If {
        line: u32,
        arms: Items<StepArm<Step>>,
        otherwise: Items<Step>,
    },
    Case {
        line: u32,
        value: Typed,
        alternatives: Items<StepAlternative<Step>>,
        otherwise: Items<Step>,
    },
    Forall {
        line: u32,
        index: Index<Typed>,
        body: Boxed<Step>,
    },
    While {
        line: u32,
        condition: Typed,
        body: Boxed<Step>,
    },
    /// With the line of `until`, which is a piece of its own.
    Repeat {
        line: u32,
        body: Items<Step>,
        until_line: u32,
        condition: Typed,
    },
    Do {
        line: u32,
        body: Items<Step>,
    },
    Break {
        line: u32,
    },
    Next {
        line: u32,
    },
    Initializations {
        line: u32,
        direction: Direction,
        name: Typed,
        labels: Items<DataLabels>,
    },
    /// The dense arrays of one item of `declarations`, made anew. The sets are those of their indexes, in order, each
    /// evaluated once for all the names; a range among them is made into a set.
    Arrays {
        line: u32,
        place: Where,
        names: Items<SourceText>,
        sort: Sort,
        sets: Items<Typed>,
    },
}

/// The line of the statement's first piece.
pub fn line_of(step: &Step) -> u32
    ensures { result ≡ spec.line_of step.now }
{
    match step {
        Step::Assign { line, .. } | Step::Change { line, .. } => *line,
        Step::Fill { line, .. } | Step::Arrays { line, .. } => *line,
        Step::Routine { line, .. } | Step::Library { line, .. } => *line,
        Step::If { line, .. } | Step::Case { line, .. } => *line,
        Step::Forall { line, .. } | Step::While { line, .. } => *line,
        Step::Repeat { line, .. } | Step::Do { line, .. } => *line,
        Step::Break { line } | Step::Next { line } => *line,
        Step::Initializations { line, .. } => *line,
    }
}
