//! How the block round a part takes it.
ghost use Rattle.std.specs.Prelude.{◌≡◌, IfOk};
ghost use Rattle.mos_source.specs.Machine as spec;

use crate::frame::{Frame, Part};
use crate::growing::one_more;
use mos_text::{NoMemory, let_go};
use mos_tree::{
    Alternative, Arm, Declared, Expr, Head, Heading, Index, Item, ModelName, RoutinePart,
    Statement, Top,
};
use sqlite_items::{Boxed, Items};
use std::alloc::Global;

/// A first part behind the heads of a model.
fn first_top(
    alloc: Global,
    line: u32,
    name: ModelName,
    heads: Items<Head>,
    top: Top,
) -> Result<Frame, NoMemory>
    ensures { IfOk result (λ frame. frame ≡ spec.first_top line name heads top) }
{
    match one_more(Items::new(alloc), top) {
        Ok(tops) => Ok(Frame::Tops {
            line,
            name,
            heads,
            tops,
        }),
        Err(refused) => {
            let_go(name);
            let_go(heads);
            Err(refused)
        }
    }
}

fn next_top(
    line: u32,
    name: ModelName,
    heads: Items<Head>,
    tops: Items<Top>,
    top: Top,
) -> Result<Frame, NoMemory>
    ensures { IfOk result (λ frame. frame ≡ spec.next_top line name heads tops top) }
{
    match one_more(tops, top) {
        Ok(tops) => Ok(Frame::Tops {
            line,
            name,
            heads,
            tops,
        }),
        Err(refused) => {
            let_go(name);
            let_go(heads);
            Err(refused)
        }
    }
}

fn next_part(
    heading: Heading,
    parts: Items<RoutinePart>,
    part: RoutinePart,
) -> Result<Frame, NoMemory>
    ensures { IfOk result (λ frame. frame ≡ spec.next_part heading parts part) }
{
    match one_more(parts, part) {
        Ok(parts) => Ok(Frame::Routine { heading, parts }),
        Err(refused) => {
            let_go(heading);
            Err(refused)
        }
    }
}

/// A model with one part more.
fn with_top(alloc: Global, frame: Frame, top: Top) -> Result<Frame, NoMemory>
    ensures { IfOk result (λ next. next ≡ spec.with_top top frame) }
{
    match frame {
        Frame::Heads { line, name, heads } => first_top(alloc, line, name, heads, top),
        Frame::Tops {
            line,
            name,
            heads,
            tops,
        } => next_top(line, name, heads, tops, top),
        other => {
            let_go(top);
            Ok(other)
        }
    }
}

/// A model or a routine with one block of `declarations` more.
fn with_declared(alloc: Global, frame: Frame, declared: Declared) -> Result<Frame, NoMemory>
    ensures { IfOk result (λ next. next ≡ spec.with_declared declared frame) }
{
    match frame {
        Frame::Routine { heading, parts } => {
            next_part(heading, parts, RoutinePart::Declarations(declared))
        }
        other => with_top(alloc, other, Top::Declarations(declared)),
    }
}

/// `declarations` with one record more.
fn with_record(frame: Frame, item: Item) -> Result<Frame, NoMemory>
    ensures { IfOk result (λ next. next ≡ spec.with_record item frame) }
{
    match frame {
        Frame::Declarations { line, items } => {
            Ok(Frame::Declarations {
                line,
                items: one_more(items, item)?,
            })
        }
        other => {
            let_go(item);
            Ok(other)
        }
    }
}

/// An alternative of `case` with its statement.
fn case_with(
    line: u32,
    value: Expr,
    alternatives: Items<Alternative<Statement>>,
    last: Alternative<Statement>,
) -> Result<Frame, NoMemory>
    ensures { IfOk result (λ frame. frame ≡ spec.case_with line value alternatives last) }
{
    match one_more(alternatives, last) {
        Ok(alternatives) => Ok(Frame::Case {
            line,
            value,
            alternatives,
        }),
        Err(refused) => {
            let_go(value);
            Err(refused)
        }
    }
}

/// An arm of `if` with one statement more.
fn if_arm_with(
    first: u32,
    arms: Items<Arm<Statement>>,
    arm: Arm<Statement>,
    statement: Statement,
) -> Result<Frame, NoMemory>
    ensures { IfOk result (λ frame. frame ≡ spec.if_arm_with first arms arm statement) }
{
    let Arm {
        line,
        condition,
        body,
    } = arm;
    match one_more(body, statement) {
        Ok(body) => Ok(Frame::IfArm {
            first,
            arms,
            line,
            condition,
            body,
        }),
        Err(refused) => {
            let_go(arms);
            let_go(condition);
            Err(refused)
        }
    }
}

/// The `else` of an `if` with one statement more.
fn if_else_with(
    first: u32,
    arms: Items<Arm<Statement>>,
    body: Items<Statement>,
    statement: Statement,
) -> Result<Frame, NoMemory>
    ensures { IfOk result (λ frame. frame
        ≡ spec.with_block_statement statement (Frame.IfElse first arms body)) }
{
    match one_more(body, statement) {
        Ok(body) => Ok(Frame::IfElse { first, arms, body }),
        Err(refused) => {
            let_go(arms);
            Err(refused)
        }
    }
}

/// The `else` of a `case` with one statement more.
fn case_else_with(
    line: u32,
    value: Expr,
    alternatives: Items<Alternative<Statement>>,
    body: Items<Statement>,
    statement: Statement,
) -> Result<Frame, NoMemory>
    ensures { IfOk result (λ frame. frame
        ≡ spec.case_else_with line value alternatives body statement) }
{
    match one_more(body, statement) {
        Ok(body) => Ok(Frame::CaseElse {
            line,
            value,
            alternatives,
            body,
        }),
        Err(refused) => {
            let_go(value);
            let_go(alternatives);
            Err(refused)
        }
    }
}

/// A block of statements with one statement more.
fn with_block_statement(
    alloc: Global,
    frame: Frame,
    statement: Statement,
) -> Result<Frame, NoMemory>
    ensures { IfOk result (λ next. next ≡ spec.with_block_statement statement frame) }
{
    match frame {
        Frame::IfElse { first, arms, body } => if_else_with(first, arms, body, statement),
        Frame::CaseElse {
            line,
            value,
            alternatives,
            body,
        } => case_else_with(line, value, alternatives, body, statement),
        Frame::Repeat { line, body } => Ok(Frame::Repeat {
            line,
            body: one_more(body, statement)?,
        }),
        Frame::Do { line, body } => Ok(Frame::Do {
            line,
            body: one_more(body, statement)?,
        }),
        other => with_top(alloc, other, Top::Statement(statement)),
    }
}

/// The block with one statement more, where it takes one without being ended by it.
pub(crate) fn with_statement(
    alloc: Global,
    frame: Frame,
    statement: Statement,
) -> Result<Frame, NoMemory>
    ensures { IfOk result (λ next. next ≡ spec.with_statement statement frame) }
{
    match frame {
        Frame::Routine { heading, parts } => {
            next_part(heading, parts, RoutinePart::Statement(statement))
        }
        Frame::IfArm {
            first,
            arms,
            line,
            condition,
            body,
        } => {
            let arm = Arm {
                line,
                condition,
                body,
            };
            if_arm_with(first, arms, arm, statement)
        }
        Frame::CaseArm {
            line,
            value,
            alternatives,
            at,
            labels,
        } => {
            let last = Alternative {
                line: at,
                labels,
                body: statement,
            };
            case_with(line, value, alternatives, last)
        }
        other => with_block_statement(alloc, other, statement),
    }
}

/// Whether one statement ends the block.
pub(crate) fn is_loop(frame: &Frame) -> bool
    ensures { result ≡ spec.is_loop frame.now }
{
    match frame {
        Frame::Forall { .. } | Frame::While { .. } => true,
        _ => false,
    }
}

fn forall_with(
    alloc: Global,
    line: u32,
    index: Index<Expr>,
    body: Statement,
) -> Result<Statement, NoMemory>
    ensures { IfOk result (λ whole. whole ≡ spec.loop_with_body body (Frame.Forall line index)) }
{
    match Boxed::new(alloc, body) {
        Ok(body) => Ok(Statement::Forall { line, index, body }),
        Err(refused) => {
            let_go(index);
            Err(refused.into())
        }
    }
}

fn while_with(
    alloc: Global,
    line: u32,
    condition: Expr,
    body: Statement,
) -> Result<Statement, NoMemory>
    ensures { IfOk result (λ whole. whole ≡ spec.loop_with_body body (Frame.While line condition)) }
{
    match Boxed::new(alloc, body) {
        Ok(body) => Ok(Statement::While {
            line,
            condition,
            body,
        }),
        Err(refused) => {
            let_go(condition);
            Err(refused.into())
        }
    }
}

/// The loop with its body.
pub(crate) fn loop_with_body(
    alloc: Global,
    frame: Frame,
    body: Statement,
) -> Result<Statement, NoMemory>
    ensures { IfOk result (λ outer. outer ≡ spec.loop_with_body body frame) }
{
    match frame {
        Frame::Forall { line, index } => forall_with(alloc, line, index, body),
        Frame::While { line, condition } => while_with(alloc, line, condition, body),
        other => {
            let_go(other);
            Ok(body)
        }
    }
}

/// The block with one part more that is no statement.
pub(crate) fn with_part(alloc: Global, frame: Frame, part: Part) -> Result<Frame, NoMemory>
    ensures { IfOk result (λ next. next ≡ spec.with_part part frame) }
{
    match part {
        Part::Declared(declared) => with_declared(alloc, frame, declared),
        Part::Top(top) => with_top(alloc, frame, top),
        Part::Record(item) => with_record(frame, item),
        other => {
            let_go(other);
            Ok(frame)
        }
    }
}
