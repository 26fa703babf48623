//! The blocks that are open at a place, and the place behind what is read.
ghost use Rattle.std.specs.Prelude.{◌≡◌};
ghost use Rattle.mos_source.specs.Machine as spec;

use crate::place::Place;
use mos_text::SourceText;
use mos_tree::{
    Alternative, Arm, Declared, Direction, Expr, FieldGroup, Head, Heading, Index, Item,
    LabelGroup, ModelName, Parameter, RoutinePart, Statement, Top, Tree,
};
use sqlite_items::Items;

/// A block that is open, with what is read of it.
#[derive(Drop)]
pub(crate) enum Frame {
    /// A model, behind its heads.
    Heads {
        line: u32,
        name: ModelName,
        heads: Items<Head>,
    },
    /// A model with something behind its heads.
    Tops {
        line: u32,
        name: ModelName,
        heads: Items<Head>,
        tops: Items<Top>,
    },
    Parameters {
        line: u32,
        parameters: Items<Parameter>,
    },
    Declarations {
        line: u32,
        items: Items<Item>,
    },
    Record {
        line: u32,
        name: SourceText,
        fields: Items<FieldGroup>,
    },
    Routine {
        heading: Heading,
        parts: Items<RoutinePart>,
    },
    /// Under `if` or `elif`: the line of the `if`, the arms before, and the arm that is read.
    IfArm {
        first: u32,
        arms: Items<Arm<Statement>>,
        line: u32,
        condition: Expr,
        body: Items<Statement>,
    },
    /// Under the `else` of an `if`.
    IfElse {
        first: u32,
        arms: Items<Arm<Statement>>,
        body: Items<Statement>,
    },
    /// Between the alternatives of a `case`.
    Case {
        line: u32,
        value: Expr,
        alternatives: Items<Alternative<Statement>>,
    },
    /// Behind the labels of an alternative, which stand on the line `at`.
    CaseArm {
        line: u32,
        value: Expr,
        alternatives: Items<Alternative<Statement>>,
        at: u32,
        labels: Items<Expr>,
    },
    /// Under the `else` of a `case`.
    CaseElse {
        line: u32,
        value: Expr,
        alternatives: Items<Alternative<Statement>>,
        body: Items<Statement>,
    },
    /// Behind `forall`.
    Forall {
        line: u32,
        index: Index<Expr>,
    },
    /// Behind `while`.
    While {
        line: u32,
        condition: Expr,
    },
    Repeat {
        line: u32,
        body: Items<Statement>,
    },
    Do {
        line: u32,
        body: Items<Statement>,
    },
    Initializations {
        line: u32,
        direction: Direction,
        name: Expr,
        rows: Items<LabelGroup>,
    },
    /// Behind `end-model`.
    End(Tree),
}

/// A whole part of a tree, which the block round it takes.
#[derive(Drop)]
pub(crate) enum Part {
    Statement(Statement),
    Declared(Declared),
    Top(Top),
    Record(Item),
    Source(Tree),
}

fn routine_place(heading: &Heading) -> Place
    ensures { result ≡ spec.routine_place heading.now.result }
{
    match &heading.result {
        None => Place::Procedure,
        Some(_) => Place::Function,
    }
}

fn frame_place(frame: &Frame) -> Place
    ensures { result ≡ spec.frame_place frame.now }
{
    match frame {
        Frame::Heads { .. } => Place::Heads,
        Frame::Tops { .. } => Place::Tops,
        Frame::Parameters { .. } => Place::Parameters,
        Frame::Declarations { .. } => Place::Declarations,
        Frame::Record { .. } => Place::Record,
        Frame::Routine { heading, .. } => routine_place(heading),
        Frame::IfArm { .. } => Place::IfArm,
        Frame::IfElse { .. } => Place::IfElse,
        Frame::Case { .. } => Place::Case,
        Frame::CaseArm { .. } => Place::CaseArm,
        Frame::CaseElse { .. } => Place::CaseElse,
        Frame::Forall { .. } | Frame::While { .. } => Place::LoopBody,
        Frame::Repeat { .. } => Place::Repeat,
        Frame::Do { .. } => Place::Do,
        Frame::Initializations { .. } => Place::Initializations,
        Frame::End(_) => Place::End,
    }
}

/// The place behind what is read.
pub(crate) fn place_of(stack: &[Frame]) -> Place
    ensures { result ≡ spec.place_of (spec.stack_of stack.now) }
{
    match stack {
        [.., frame] => frame_place(frame),
        [] => Place::Start,
    }
}
