//! The block that a piece opens, and what a piece is by itself.
ghost use Rattle.std.specs.Prelude.{◌≡◌, []};
ghost use Rattle.mos_source.specs.Machine as spec;
ghost use Rattle.mos_source.specs.Statements.{statement_of};

use crate::frame::{Frame, Part};
use mos_text::let_go;
use mos_tree::{ConditionKeyword, Expr, Form, Heading, Keyword, Simple, Statement, Top};
use sqlite_items::Items;
use std::alloc::Global;

/// The block that a piece with an expression opens.
fn opened_by_condition(alloc: Global, line: u32, word: ConditionKeyword, x: Expr) -> Option<Frame>
    ensures { result ≡ spec.opened_by_condition line word x }
{
    match word {
        ConditionKeyword::If => Some(Frame::IfArm {
            first: line,
            arms: Items::new(alloc),
            line,
            condition: x,
            body: Items::new(alloc),
        }),
        ConditionKeyword::Case => Some(Frame::Case {
            line,
            value: x,
            alternatives: Items::new(alloc),
        }),
        ConditionKeyword::While => Some(Frame::While { line, condition: x }),
        _ => {
            let_go(x);
            None
        }
    }
}

/// The block that a word opens.
fn opened_by_word(alloc: Global, line: u32, word: Keyword) -> Option<Frame>
    ensures { result ≡ spec.opened_by_word line word }
{
    match word {
        Keyword::Parameters => Some(Frame::Parameters {
            line,
            parameters: Items::new(alloc),
        }),
        Keyword::Declarations => Some(Frame::Declarations {
            line,
            items: Items::new(alloc),
        }),
        Keyword::Repeat => Some(Frame::Repeat {
            line,
            body: Items::new(alloc),
        }),
        Keyword::Do => Some(Frame::Do {
            line,
            body: Items::new(alloc),
        }),
        _ => None,
    }
}

/// The block that the piece opens.
pub(crate) fn opened_by(alloc: Global, line: u32, form: Form) -> Option<Frame>
    ensures { result ≡ spec.opened_by line form }
{
    match form {
        Form::Keyword(word) => opened_by_word(alloc, line, word),
        Form::Model(name) => Some(Frame::Heads {
            line,
            name,
            heads: Items::new(alloc),
        }),
        Form::RecordOf(name) => Some(Frame::Record {
            line,
            name,
            fields: Items::new(alloc),
        }),
        Form::Routine {
            name,
            formals,
            result: typ,
        } => Some(Frame::Routine {
            heading: Heading {
                line,
                name,
                formals,
                result: typ,
            },
            parts: Items::new(alloc),
        }),
        Form::Guarded(word, x) => opened_by_condition(alloc, line, word, x),
        Form::Forall(index) => Some(Frame::Forall { line, index }),
        Form::Initializations { direction, name } => Some(Frame::Initializations {
            line,
            direction,
            name,
            rows: Items::new(alloc),
        }),
        other => {
            let_go(other);
            None
        }
    }
}

/// The statement that the piece is.
fn statement_of(line: u32, simple: Simple) -> Statement
    ensures { result ≡ statement_of line simple }
{
    match simple {
        Simple::Assign {
            target,
            operator,
            value,
        } => Statement::Assign {
            line,
            target,
            operator,
            value,
        },
        Simple::Fill { name, values } => Statement::Fill { line, name, values },
        Simple::Call { name, arguments } => Statement::Call {
            line,
            name,
            arguments,
        },
        Simple::Break => Statement::Break { line },
        Simple::Next => Statement::Next { line },
    }
}

/// What the piece is by itself.
pub(crate) fn stands_alone(alloc: Global, line: u32, form: Form) -> Option<Part>
    ensures { result ≡ spec.stands_alone line form }
{
    match form {
        Form::Simple(simple) => Some(Part::Statement(statement_of(line, simple))),
        Form::Bare(name) => Some(Part::Statement(Statement::Call {
            line,
            name,
            arguments: Items::new(alloc),
        })),
        Form::Forward {
            name,
            formals,
            result: typ,
        } => Some(Part::Top(Top::Forward(Heading {
            line,
            name,
            formals,
            result: typ,
        }))),
        other => {
            let_go(other);
            None
        }
    }
}
