//! Operands and the frames that they end: operators by how tightly they bind.
ghost use Rattle.std.specs.Prelude.{◌≡◌, IfOk};
ghost use Rattle.mos_expr.specs.Machine as spec;

use crate::frame::Frame;
use crate::level::{binds, left_of, level_before, level_body, right_of};
use crate::operand::{Operand, aggregate_of, before_of, between_of};
use crate::stack::{pop, push};
use mos_scan::TokenKind;
use mos_text::{NoMemory, let_go};
use mos_tree::BinaryOperator;
use std::alloc::Global;

/// Whether an operand ends the frame.
fn folds(frame: &Frame) -> bool
    ensures { result ≡ spec.folds frame.now }
{
    match frame {
        Frame::Before(_) | Frame::Between(_, _) | Frame::Body(_, _) => true,
        _ => false,
    }
}

/// The loosest operand that the frame takes.
fn room(frame: &Frame) -> u32
    ensures { result ≡ spec.room frame.now }
{
    match frame {
        Frame::Before(op) => level_before(*op),
        Frame::Between(op, _) => right_of(*op),
        Frame::Body(op, _) => level_body(*op),
        Frame::IndexSet(_, _, _) => 5,
        _ => 9,
    }
}

/// Lets go of what spells no expression.
pub(crate) fn let_both_go(frame: Frame, operand: Operand) {
    let_go(frame);
    let_go(operand);
}

/// What the frame makes of an operand that ends it.
fn frame_result(alloc: Global, frame: Frame, operand: Operand) -> Result<Option<Operand>, NoMemory>
    ensures { IfOk result (λ made. made ≡ spec.frame_result frame operand) }
{
    match frame {
        Frame::Before(op) => Ok(Some(before_of(alloc, op, operand)?)),
        Frame::Between(op, a) => Ok(Some(between_of(alloc, op, a, operand)?)),
        Frame::Body(op, index) => Ok(Some(aggregate_of(alloc, op, index, operand)?)),
        other => {
            let_both_go(other, operand);
            Ok(None)
        }
    }
}

fn fold(alloc: Global, frame: Frame, operand: Operand) -> Result<Option<Operand>, NoMemory>
    ensures { IfOk result (λ made. made ≡ spec.fold frame operand) }
{
    if operand.level <= room(&frame) {
        return frame_result(alloc, frame, operand);
    }
    let_both_go(frame, operand);
    Ok(None)
}

fn top_folds(stack: &[Frame]) -> bool
    ensures { result ≡ spec.top_folds (spec.stack_of stack.now) }
{
    match stack {
        [.., frame] => folds(frame),
        [] => false,
    }
}

fn stays(op: BinaryOperator, level: u32, stack: &[Frame]) -> bool
    ensures { result ≡ spec.stays op level (spec.stack_of stack.now) }
{
    match stack {
        [.., frame] => binds(op) <= room(frame) && level <= left_of(op),
        [] => level <= left_of(op),
    }
}

/// The operand with all that it ends.
pub(crate) fn fold_frames(
    alloc: Global,
    stack: &mut Vec<Frame>,
    operand: Operand,
) -> Result<Option<Operand>, NoMemory>
    ensures { IfOk result
        (λ made. spec.fold_frames operand (spec.stack_of stack.old.items)
        ≡ spec.fold_result_of made (spec.stack_of stack.new.items)) }
{
    let mut operand = operand;
    while top_folds(stack) {
        let Some(frame) = pop(stack) else {
            return Ok(Some(operand));
        };
        match fold(alloc, frame, operand)? {
            None => return Ok(None),
            Some(y) => operand = y,
        }
    }
    Ok(Some(operand))
}

/// The operator that begins with this token, behind an operand.
pub(crate) fn operator_of(kind: TokenKind) -> Option<BinaryOperator>
    ensures { result ≡ spec.operator_of kind }
{
    match kind {
        TokenKind::Times => Some(BinaryOperator::Times),
        TokenKind::Div => Some(BinaryOperator::Div),
        TokenKind::Mod => Some(BinaryOperator::Mod),
        TokenKind::Inter => Some(BinaryOperator::Inter),
        TokenKind::Plus => Some(BinaryOperator::Plus),
        TokenKind::Minus => Some(BinaryOperator::Minus),
        TokenKind::Union => Some(BinaryOperator::Union),
        TokenKind::DotDot => Some(BinaryOperator::Range),
        TokenKind::Equal => Some(BinaryOperator::Equal),
        TokenKind::NotEqual => Some(BinaryOperator::NotEqual),
        TokenKind::Less => Some(BinaryOperator::Less),
        TokenKind::AtMost => Some(BinaryOperator::AtMost),
        TokenKind::Greater => Some(BinaryOperator::Greater),
        TokenKind::AtLeast => Some(BinaryOperator::AtLeast),
        TokenKind::In => Some(BinaryOperator::In),
        TokenKind::Not => Some(BinaryOperator::NotIn),
        TokenKind::And => Some(BinaryOperator::And),
        TokenKind::Or => Some(BinaryOperator::Or),
        _ => None,
    }
}

/// The frames behind an operator: false where it can stand behind no operand that is open.
pub(crate) fn place(
    alloc: Global,
    stack: &mut Vec<Frame>,
    op: BinaryOperator,
    operand: Operand,
) -> Result<bool, NoMemory>
    ensures { IfOk result
        (λ placed. spec.place_operator op operand (spec.stack_of stack.old.items)
        ≡ spec.frames_if placed (spec.stack_of stack.new.items)) }
{
    let mut operand = operand;
    while !stays(op, operand.level, stack.as_slice()) {
        if !top_folds(stack.as_slice()) {
            let_go(operand);
            return Ok(false);
        }
        let Some(frame) = pop(stack) else {
            let_go(operand);
            return Ok(false);
        };
        match fold(alloc, frame, operand)? {
            None => return Ok(false),
            Some(y) => operand = y,
        }
    }
    match push(stack, Frame::Between(op, operand)) {
        Ok(()) => Ok(true),
        Err(refused) => Err(refused),
    }
}
