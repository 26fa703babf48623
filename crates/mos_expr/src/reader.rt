//! What one word does.
ghost use Rattle.std.specs.Prelude.{◌≡◌, IfOk};
ghost use Rattle.mos_expr.specs.Machine as spec;
ghost use Rattle.mos_expr.specs.Reader as reads;

use crate::building::with_name;
use crate::frame::{Frame, IndexKind, ListKind, Mode};
use crate::machine::{fold_frames, let_both_go, operator_of, place};
use crate::operand::{Groups, Operand, Parts, leaf_of};
use crate::parts::{call_field_of, call_of, no_groups, no_parts};
use crate::stack::{opened, pop};
use crate::taking::{at_bar, at_bracket, at_comma, at_round, list_closed};
use mos_scan::{TokenKind, Word};
use mos_text::{NoMemory, SourceText, let_go};
use mos_tree::{AggregateOperator, BinaryOperator, Conversion, Expr, UnaryOperator};
use sqlite_items::Items;
use std::alloc::Global;

/// The innermost frame takes the operand at a bracket, a comma or a bar.
fn at_frame(
    alloc: Global,
    stack: &mut Vec<Frame>,
    kind: TokenKind,
    operand: Operand,
) -> Result<Option<Mode>, NoMemory>
    ensures { IfOk result
        (spec.IsStep (spec.at_frame kind operand) stack.old.items stack.new.items) }
{
    let Some(frame) = pop(stack) else {
        let_go(operand);
        return Ok(None);
    };
    match kind {
        TokenKind::CloseRound => at_round(alloc, stack, frame, operand),
        TokenKind::CloseCurly | TokenKind::CloseSquare => at_bracket(kind, frame, operand),
        TokenKind::Comma => at_comma(alloc, stack, frame, operand),
        TokenKind::Bar => at_bar(stack, frame, operand),
        _ => {
            let_both_go(frame, operand);
            Ok(None)
        }
    }
}

/// What comes behind an operator.
fn mode_behind(op: BinaryOperator) -> Mode
    ensures { result ≡ spec.mode_behind op }
{
    match op {
        BinaryOperator::NotIn => Mode::WantIn,
        _ => Mode::Want,
    }
}

/// An operator behind an operand.
fn infix(
    alloc: Global,
    stack: &mut Vec<Frame>,
    op: BinaryOperator,
    operand: Operand,
) -> Result<Option<Mode>, NoMemory>
    ensures { IfOk result (spec.IsStep (spec.infix_at op operand) stack.old.items stack.new.items) }
{
    match place(alloc, stack, op, operand) {
        Ok(true) => Ok(Some(mode_behind(op))),
        Ok(false) => Ok(None),
        Err(refused) => Err(refused),
    }
}

/// A bracket, a comma or a bar behind an operand.
fn close(
    alloc: Global,
    stack: &mut Vec<Frame>,
    kind: TokenKind,
    operand: Operand,
) -> Result<Option<Mode>, NoMemory>
    ensures { IfOk result (spec.IsStep (spec.close kind operand) stack.old.items stack.new.items) }
{
    match fold_frames(alloc, stack, operand) {
        Ok(None) => Ok(None),
        Ok(Some(y)) => at_frame(alloc, stack, kind, y),
        Err(refused) => Err(refused),
    }
}

#[tactic(auto, unfolding(crate::specs::Machine::after_key))]
fn after_key(
    alloc: Global,
    stack: &mut Vec<Frame>,
    kind: TokenKind,
    operand: Operand,
) -> Result<Option<Mode>, NoMemory>
    ensures { IfOk result
        (spec.IsStep (spec.after_key kind operand) stack.old.items stack.new.items) }
{
    match operator_of(kind) {
        Some(op) => infix(alloc, stack, op, operand),
        None => close(alloc, stack, kind, operand),
    }
}

/// A word behind an operand.
fn after(
    alloc: Global,
    stack: &mut Vec<Frame>,
    operand: Operand,
    word: &Word,
) -> Result<Option<Mode>, NoMemory>
    ensures { IfOk result
        (spec.IsStep (reads.after operand word.now) stack.old.items stack.new.items) }
{
    match word {
        Word::Key(kind) => after_key(alloc, stack, *kind, operand),
        _ => {
            let_go(operand);
            Ok(None)
        }
    }
}

/// A word behind a name.
fn after_named(
    alloc: Global,
    stack: &mut Vec<Frame>,
    name: SourceText,
    word: &Word,
) -> Result<Option<Mode>, NoMemory>
    ensures { IfOk result
        (spec.IsStep (reads.after_named name word.now) stack.old.items stack.new.items) }
{
    match word {
        Word::Key(TokenKind::OpenRound) => {
            opened(
                stack,
                Frame::InList(ListKind::Call(name), no_parts(alloc)),
                Mode::WantFirst,
            )
        }
        Word::Key(TokenKind::Dot) => Ok(Some(Mode::Dotted(name))),
        _ => after(alloc, stack, leaf_of(Expr::Name(name)), word),
    }
}

/// A word behind a call.
fn after_called(
    alloc: Global,
    stack: &mut Vec<Frame>,
    name: SourceText,
    parts: Parts,
    word: &Word,
) -> Result<Option<Mode>, NoMemory>
    ensures { IfOk result
        (spec.IsStep (reads.after_called name parts word.now) stack.old.items stack.new.items) }
{
    match word {
        Word::Key(TokenKind::Dot) => Ok(Some(Mode::DottedCall(name, parts))),
        _ => after(alloc, stack, call_of(name, parts), word),
    }
}

/// A word behind a name and a dot.
fn after_dot(alloc: Global, name: SourceText, word: &Word) -> Result<Option<Mode>, NoMemory>
    ensures { IfOk result (spec.IsStepAnywhere (reads.after_dot name word.now)) }
{
    match word {
        Word::Name(field) => match field.copy(alloc) {
            Ok(field) => Ok(Some(Mode::After(leaf_of(Expr::Field(name, field))))),
            Err(refused) => {
                let_go(name);
                Err(refused)
            }
        },
        _ => {
            let_go(name);
            Ok(None)
        }
    }
}

/// A word behind a call and a dot.
fn after_dot_of_call(
    alloc: Global,
    name: SourceText,
    parts: Parts,
    word: &Word,
) -> Result<Option<Mode>, NoMemory>
    ensures { IfOk result (spec.IsStepAnywhere (reads.after_dot_of_call name parts word.now)) }
{
    match word {
        Word::Name(field) => match field.copy(alloc) {
            Ok(field) => Ok(Some(Mode::After(call_field_of(name, parts, field)))),
            Err(refused) => {
                let_go(name);
                let_go(parts);
                Err(refused)
            }
        },
        _ => {
            let_go(name);
            let_go(parts);
            Ok(None)
        }
    }
}

/// The aggregate that begins with this token.
#[tactic(auto, unfolding(crate::specs::Reader::aggregate_key))]
fn aggregate_key(kind: TokenKind) -> Option<IndexKind>
    ensures { result ≡ reads.aggregate_key kind }
{
    match kind {
        TokenKind::Sum => Some(IndexKind::Aggregate(AggregateOperator::Sum)),
        TokenKind::Prod => Some(IndexKind::Aggregate(AggregateOperator::Prod)),
        TokenKind::Min => Some(IndexKind::Aggregate(AggregateOperator::Min)),
        TokenKind::Max => Some(IndexKind::Aggregate(AggregateOperator::Max)),
        TokenKind::Union => Some(IndexKind::Aggregate(AggregateOperator::Union)),
        TokenKind::And => Some(IndexKind::Aggregate(AggregateOperator::And)),
        TokenKind::Or => Some(IndexKind::Aggregate(AggregateOperator::Or)),
        TokenKind::Count => Some(IndexKind::Count),
        _ => None,
    }
}

fn index_wanted(kind: Option<IndexKind>) -> Option<Mode>
    ensures { spec.IsStepAnywhere (reads.index_wanted kind) result }
{
    match kind {
        None => None,
        Some(kind) => Some(Mode::WantIndex(kind)),
    }
}

/// A token where an operand is wanted.
#[tactic(auto, unfolding(crate::specs::Reader::want_key))]
fn want_key(
    alloc: Global,
    stack: &mut Vec<Frame>,
    kind: TokenKind,
) -> Result<Option<Mode>, NoMemory>
    ensures { IfOk result (spec.IsStep (reads.want_key kind) stack.old.items stack.new.items) }
{
    match kind {
        TokenKind::True => Ok(Some(Mode::After(leaf_of(Expr::Truth(true))))),
        TokenKind::False => Ok(Some(Mode::After(leaf_of(Expr::Truth(false))))),
        TokenKind::Returned => Ok(Some(Mode::After(leaf_of(Expr::Returned)))),
        TokenKind::OpenRound => opened(stack, Frame::Bracket, Mode::Want),
        TokenKind::OpenCurly => opened(
            stack,
            Frame::InList(ListKind::Set, no_parts(alloc)),
            Mode::WantFirst,
        ),
        TokenKind::OpenSquare => opened(
            stack,
            Frame::InList(ListKind::List, no_parts(alloc)),
            Mode::WantFirst,
        ),
        TokenKind::If => opened(stack, Frame::IfExpr, Mode::WantOpen),
        TokenKind::Integer => opened(stack, Frame::Convert(Conversion::Integer), Mode::WantOpen),
        TokenKind::StringWord => opened(stack, Frame::Convert(Conversion::Text), Mode::WantOpen),
        TokenKind::Minus => opened(stack, Frame::Before(UnaryOperator::Minus), Mode::Want),
        TokenKind::Plus => opened(stack, Frame::Before(UnaryOperator::Plus), Mode::Want),
        TokenKind::Not => opened(stack, Frame::Before(UnaryOperator::Not), Mode::Want),
        kind => Ok(index_wanted(aggregate_key(kind))),
    }
}

/// A word where an operand is wanted.
fn want(alloc: Global, stack: &mut Vec<Frame>, word: &Word) -> Result<Option<Mode>, NoMemory>
    ensures { IfOk result (spec.IsStep (reads.want word.now) stack.old.items stack.new.items) }
{
    match word {
        Word::Number(value) => Ok(Some(Mode::After(leaf_of(Expr::Integer(*value))))),
        Word::Text(text) => Ok(Some(Mode::After(leaf_of(Expr::Text(text.copy(alloc)?))))),
        Word::Name(name) => Ok(Some(Mode::Named(name.copy(alloc)?))),
        Word::Key(kind) => want_key(alloc, stack, *kind),
    }
}

/// A bracket that closes what has no parts.
fn close_empty(stack: &mut Vec<Frame>, kind: TokenKind) -> Option<Mode>
    ensures { spec.IsStep (reads.close_empty kind) stack.old.items stack.new.items result }
{
    let Some(frame) = pop(stack) else {
        return None;
    };
    match frame {
        Frame::InList(list, parts) => list_closed(kind, list, parts),
        other => {
            let_go(other);
            None
        }
    }
}

/// A token behind an opening bracket.
fn first_key(
    alloc: Global,
    stack: &mut Vec<Frame>,
    kind: TokenKind,
) -> Result<Option<Mode>, NoMemory>
    ensures { IfOk result (spec.IsStep (reads.first_key kind) stack.old.items stack.new.items) }
{
    match kind {
        TokenKind::CloseRound | TokenKind::CloseCurly | TokenKind::CloseSquare => {
            Ok(close_empty(stack, kind))
        }
        _ => want_key(alloc, stack, kind),
    }
}

/// A word behind an opening bracket.
fn want_first(alloc: Global, stack: &mut Vec<Frame>, word: &Word) -> Result<Option<Mode>, NoMemory>
    ensures { IfOk result (spec.IsStep (reads.want_first word.now) stack.old.items stack.new.items) }
{
    match word {
        Word::Key(kind) => first_key(alloc, stack, *kind),
        _ => want(alloc, stack, word),
    }
}

fn want_open(word: &Word) -> Option<Mode>
    ensures { spec.IsStepAnywhere (reads.want_open word.now) result }
{
    match word {
        Word::Key(TokenKind::OpenRound) => Some(Mode::Want),
        _ => None,
    }
}

fn open_index(alloc: Global, kind: IndexKind, word: &Word) -> Option<Mode>
    ensures { spec.IsStepAnywhere (reads.open_index kind word.now) result }
{
    match word {
        Word::Key(TokenKind::OpenRound) => {
            Some(Mode::WantName(kind, no_groups(alloc), Items::new(alloc)))
        }
        _ => None,
    }
}

fn want_in(word: &Word) -> Option<Mode>
    ensures { spec.IsStepAnywhere (reads.want_in word.now) result }
{
    match word {
        Word::Key(TokenKind::In) => Some(Mode::Want),
        _ => None,
    }
}

/// A word where a name of an index is wanted.
fn want_name(
    alloc: Global,
    kind: IndexKind,
    groups: Groups,
    names: Items<SourceText>,
    word: &Word,
) -> Result<Option<Mode>, NoMemory>
    ensures { IfOk result (spec.IsStepAnywhere (reads.want_name kind groups names word.now)) }
{
    match word {
        Word::Name(name) => match with_name(alloc, names, name) {
            Ok(names) => Ok(Some(Mode::AfterName(kind, groups, names))),
            Err(refused) => {
                let_go(groups);
                Err(refused)
            }
        },
        _ => {
            let_go(groups);
            let_go(names);
            Ok(None)
        }
    }
}

/// A word behind a name of an index.
fn after_name(
    stack: &mut Vec<Frame>,
    kind: IndexKind,
    groups: Groups,
    names: Items<SourceText>,
    word: &Word,
) -> Result<Option<Mode>, NoMemory>
    ensures { IfOk result (spec.IsStep (reads.after_name kind groups names word.now) stack.old.items stack.new.items) }
{
    match word {
        Word::Key(TokenKind::Comma) => Ok(Some(Mode::WantName(kind, groups, names))),
        Word::Key(TokenKind::In) => opened(stack, Frame::IndexSet(kind, groups, names), Mode::Want),
        _ => {
            let_go(groups);
            let_go(names);
            Ok(None)
        }
    }
}

/// What one word does.
#[tactic(auto, unfolding(crate::specs::Reader::step))]
pub(crate) fn step(
    alloc: Global,
    stack: &mut Vec<Frame>,
    mode: Mode,
    word: &Word,
) -> Result<Option<Mode>, NoMemory>
    ensures { IfOk result (spec.IsStep (reads.step mode word.now) stack.old.items stack.new.items) }
{
    match mode {
        Mode::Want => want(alloc, stack, word),
        Mode::WantFirst => want_first(alloc, stack, word),
        Mode::WantOpen => Ok(want_open(word)),
        Mode::WantIndex(kind) => Ok(open_index(alloc, kind, word)),
        Mode::Named(name) => after_named(alloc, stack, name, word),
        Mode::Called(name, parts) => after_called(alloc, stack, name, parts, word),
        Mode::Dotted(name) => after_dot(alloc, name, word),
        Mode::DottedCall(name, parts) => after_dot_of_call(alloc, name, parts, word),
        Mode::After(operand) => after(alloc, stack, operand, word),
        Mode::WantIn => Ok(want_in(word)),
        Mode::WantName(kind, groups, names) => want_name(alloc, kind, groups, names, word),
        Mode::AfterName(kind, groups, names) => after_name(stack, kind, groups, names, word),
    }
}
