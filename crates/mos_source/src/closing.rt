//! What a block is that is closed.
ghost use Rattle.std.specs.Prelude.{◌≡◌, [], IfOk};
ghost use Rattle.mos_source.specs.Machine as spec;

use crate::frame::{Frame, Part};
use crate::growing::one_more;
use mos_text::{NoMemory, let_go};
use mos_tree::{Arm, Declared, Form, Head, Item, ModelName, Routine, Statement, Top, Tree};
use sqlite_items::Items;
use std::alloc::Global;

/// `repeat` with its `until`.
fn until(line: u32, form: Form, at: u32, body: Items<Statement>) -> Option<Part>
    ensures { result ≡ spec.until line form at body }
{
    match form {
        Form::Guarded(_, condition) => Some(Part::Statement(Statement::Repeat {
            line: at,
            body,
            until_line: line,
            condition,
        })),
        other => {
            let_go(other);
            let_go(body);
            None
        }
    }
}

/// `if` with its arms.
fn whole_if(
    alloc: Global,
    first: u32,
    arms: Items<Arm<Statement>>,
    last: Arm<Statement>,
) -> Result<Part, NoMemory>
    ensures { IfOk result (λ part. part ≡ spec.whole_if first arms last) }
{
    Ok(Part::Statement(Statement::If {
        line: first,
        arms: one_more(arms, last)?,
        otherwise: Items::new(alloc),
    }))
}

/// The `case` that is closed.
fn closed_case(alloc: Global, frame: Frame) -> Option<Part>
    ensures { result ≡ spec.closed_case frame }
{
    match frame {
        Frame::Case {
            line,
            value,
            alternatives,
        } => Some(Part::Statement(Statement::Case {
            line,
            value,
            alternatives,
            otherwise: Items::new(alloc),
        })),
        Frame::CaseElse {
            line,
            value,
            alternatives,
            body,
        } => Some(Part::Statement(Statement::Case {
            line,
            value,
            alternatives,
            otherwise: body,
        })),
        other => {
            let_go(other);
            None
        }
    }
}

/// The block of statements or of data that is closed, or the `case`.
fn closed_block(alloc: Global, line: u32, form: Form, frame: Frame) -> Option<Part>
    ensures { result ≡ spec.closed_block line form frame }
{
    match frame {
        Frame::Repeat { line: at, body } => until(line, form, at, body),
        Frame::Do { line: at, body } => Some(Part::Statement(Statement::Do { line: at, body })),
        Frame::Initializations {
            line: at,
            direction,
            name,
            rows,
        } => Some(Part::Statement(Statement::Initializations {
            line: at,
            direction,
            name,
            labels: rows,
        })),
        other => closed_case(alloc, other),
    }
}

/// The statement that is closed.
fn closed_statement(
    alloc: Global,
    line: u32,
    form: Form,
    frame: Frame,
) -> Result<Option<Part>, NoMemory>
    ensures { IfOk result (λ part. part ≡ spec.closed_statement line form frame) }
{
    match frame {
        Frame::IfArm {
            first,
            arms,
            line: at,
            condition,
            body,
        } => {
            let last = Arm {
                line: at,
                condition,
                body,
            };
            Ok(Some(whole_if(alloc, first, arms, last)?))
        }
        Frame::IfElse { first, arms, body } => Ok(Some(Part::Statement(Statement::If {
            line: first,
            arms,
            otherwise: body,
        }))),
        other => Ok(closed_block(alloc, line, form, other)),
    }
}

/// The model that is closed.
fn closed_model(line: u32, name: ModelName, heads: Items<Head>, tops: Items<Top>) -> Part
    ensures { result ≡ spec.closed_model line name heads tops }
{
    Part::Source(Tree {
        line,
        name,
        heads,
        tops,
    })
}

/// The model that is closed behind its heads.
fn closed_heads(alloc: Global, line: u32, name: ModelName, heads: Items<Head>) -> Part
    ensures { result ≡ spec.closed_model line name heads [] }
{
    closed_model(line, name, heads, Items::new(alloc))
}

/// The block of rows that is closed, or the statement.
fn closed_rows(alloc: Global, line: u32, form: Form, frame: Frame) -> Result<Option<Part>, NoMemory>
    ensures { IfOk result (λ part. part ≡ spec.closed_rows line form frame) }
{
    match frame {
        Frame::Parameters {
            line: at,
            parameters,
        } => Ok(Some(Part::Top(Top::Parameters {
            line: at,
            parameters,
        }))),
        Frame::Declarations { line: at, items } => {
            Ok(Some(Part::Declared(Declared { line: at, items })))
        }
        Frame::Record {
            line: at,
            name,
            fields,
        } => Ok(Some(Part::Record(Item::Record {
            line: at,
            name,
            fields,
        }))),
        other => closed_statement(alloc, line, form, other),
    }
}

/// What the block is that the piece closes.
pub(crate) fn closed_by(
    alloc: Global,
    line: u32,
    form: Form,
    frame: Frame,
) -> Result<Option<Part>, NoMemory>
    ensures { IfOk result (λ part. part ≡ spec.closed_by line form frame) }
{
    match frame {
        Frame::Heads {
            line: at,
            name,
            heads,
        } => Ok(Some(closed_heads(alloc, at, name, heads))),
        Frame::Tops {
            line: at,
            name,
            heads,
            tops,
        } => Ok(Some(closed_model(at, name, heads, tops))),
        Frame::Routine { heading, parts } => {
            Ok(Some(Part::Top(Top::Routine(Routine { heading, parts }))))
        }
        other => closed_rows(alloc, line, form, other),
    }
}
