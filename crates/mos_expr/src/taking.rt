//! What the innermost frame makes of an operand at a bracket, a comma or a bar.
ghost use Rattle.std.specs.Prelude.{◌≡◌, IfOk};
ghost use Rattle.mos_expr.specs.Machine as spec;
ghost use Rattle.mos_expr.specs.Operands as operands;
ghost use Rattle.mos_expr.specs.declared.frame.Frame.TheVariants as frame_kind;

use crate::frame::{Frame, IndexKind, ListKind, Mode};
use crate::machine::let_both_go;
use crate::operand::{Groups, Operand, Parts, WholeIndex, bracket_of, convert_of, if_expr_of};
use crate::parts::{
    conditioned_index_of, counted_of, list_of, parts_with, set_of, set_read, whole_index_of,
};
use crate::stack::opened;
use mos_scan::TokenKind;
use mos_text::{NoMemory, SourceText, let_go};
use sqlite_items::Items;
use std::alloc::Global;

/// What comes behind the closing bracket of an index.
fn index_read(
    stack: &mut Vec<Frame>,
    kind: IndexKind,
    whole: WholeIndex,
) -> Result<Option<Mode>, NoMemory>
    ensures { IfOk result (spec.IsStep (spec.index_read kind whole) stack.old.items stack.new.items) }
{
    match kind {
        IndexKind::Count => Ok(Some(Mode::After(counted_of(whole)))),
        IndexKind::Aggregate(op) => opened(stack, Frame::Body(op, whole), Mode::Want),
        IndexKind::Loop => {
            let_go(whole);
            Ok(None)
        }
    }
}

/// The names that come behind a whole set of an index.
fn set_at_comma(
    alloc: Global,
    stack: &[Frame],
    kind: IndexKind,
    groups: Groups,
    names: Items<SourceText>,
    operand: Operand,
) -> Result<Option<Mode>, NoMemory>
    ensures { IfOk result
        (spec.IsStep (spec.set_at_comma kind groups names operand) stack.now stack.now) }
{
    match set_read(groups, names, operand)? {
        Some(groups) => Ok(Some(Mode::WantName(kind, groups, Items::new(alloc)))),
        None => Ok(None),
    }
}

/// Expressions go on behind a comma.
fn list_at_comma(
    stack: &mut Vec<Frame>,
    list: ListKind,
    parts: Parts,
    operand: Operand,
) -> Result<Option<Mode>, NoMemory>
    ensures { IfOk result
        (spec.IsStep (spec.want_with (frame_kind.InList list (operands.parts_with parts operand)))
        stack.old.items stack.new.items) }
{
    match parts_with(parts, operand) {
        Ok(parts) => opened(stack, Frame::InList(list, parts), Mode::Want),
        Err(refused) => {
            let_go(list);
            Err(refused)
        }
    }
}

/// The innermost frame takes the operand at a comma.
pub(crate) fn at_comma(
    alloc: Global,
    stack: &mut Vec<Frame>,
    frame: Frame,
    operand: Operand,
) -> Result<Option<Mode>, NoMemory>
    ensures { IfOk result
        (spec.IsStep (spec.at_comma frame operand) stack.old.items stack.new.items) }
{
    match frame {
        Frame::InList(list, parts) => list_at_comma(stack, list, parts, operand),
        Frame::IfExpr => opened(stack, Frame::IfFirst(operand), Mode::Want),
        Frame::IfFirst(first) => opened(stack, Frame::IfSecond(first, operand), Mode::Want),
        Frame::IndexSet(kind, groups, names) => set_at_comma(
            alloc,
            stack.as_slice(),
            kind,
            groups,
            names,
            operand,
        ),
        other => {
            let_both_go(other, operand);
            Ok(None)
        }
    }
}

/// A closing bracket behind the last set of an index.
fn set_at_round(
    stack: &mut Vec<Frame>,
    kind: IndexKind,
    groups: Groups,
    names: Items<SourceText>,
    operand: Operand,
) -> Result<Option<Mode>, NoMemory>
    ensures { IfOk result
        (spec.IsStep (spec.set_at_round kind groups names operand) stack.old.items
        stack.new.items) }
{
    match set_read(groups, names, operand)? {
        Some(groups) => index_read(stack, kind, whole_index_of(groups)),
        None => Ok(None),
    }
}

/// Whether the bracket closes such expressions.
fn closes(kind: TokenKind, list: &ListKind) -> bool
    ensures { result ≡ spec.closes kind list.now }
{
    match kind {
        TokenKind::CloseRound => matches!(list, ListKind::Call(_)),
        TokenKind::CloseCurly => matches!(list, ListKind::Set),
        TokenKind::CloseSquare => matches!(list, ListKind::List),
        _ => false,
    }
}

/// What the expressions are, behind their bracket.
fn closed_list(list: ListKind, parts: Parts) -> Option<Mode>
    ensures { result ≡ spec.closed_list list parts }
{
    match list {
        ListKind::Call(name) => Some(Mode::Called(name, parts)),
        ListKind::Set => Some(Mode::After(set_of(parts))),
        ListKind::List => Some(Mode::After(list_of(parts))),
        ListKind::Bare => {
            let_go(parts);
            None
        }
    }
}

/// The bracket behind all of the expressions.
pub(crate) fn list_closed(kind: TokenKind, list: ListKind, parts: Parts) -> Option<Mode>
    ensures { result ≡ spec.list_closed kind list parts }
{
    if closes(kind, &list) {
        return closed_list(list, parts);
    }
    let_go(list);
    let_go(parts);
    None
}

fn list_at_bracket(
    kind: TokenKind,
    list: ListKind,
    parts: Parts,
    operand: Operand,
) -> Result<Option<Mode>, NoMemory>
    ensures { IfOk result
        (λ next. next ≡ spec.list_closed kind list (operands.parts_with parts operand)) }
{
    match parts_with(parts, operand) {
        Ok(parts) => Ok(list_closed(kind, list, parts)),
        Err(refused) => {
            let_go(list);
            Err(refused)
        }
    }
}

/// A closing bracket behind the last of some expressions.
pub(crate) fn at_bracket(
    kind: TokenKind,
    frame: Frame,
    operand: Operand,
) -> Result<Option<Mode>, NoMemory>
    ensures { IfOk result (spec.IsStepAnywhere (spec.at_bracket kind frame operand)) }
{
    match frame {
        Frame::InList(list, parts) => list_at_bracket(kind, list, parts, operand),
        other => {
            let_both_go(other, operand);
            Ok(None)
        }
    }
}

fn condition_at_round(
    alloc: Global,
    stack: &mut Vec<Frame>,
    kind: IndexKind,
    groups: Groups,
    operand: Operand,
) -> Result<Option<Mode>, NoMemory>
    ensures { IfOk result
        (spec.IsStep (spec.index_read kind (operands.conditioned_index_of groups operand))
        stack.old.items stack.new.items) }
{
    match conditioned_index_of(alloc, groups, operand) {
        Ok(whole) => index_read(stack, kind, whole),
        Err(refused) => Err(refused),
    }
}

/// The innermost frame takes the operand at a closing bracket.
pub(crate) fn at_round(
    alloc: Global,
    stack: &mut Vec<Frame>,
    frame: Frame,
    operand: Operand,
) -> Result<Option<Mode>, NoMemory>
    ensures { IfOk result
        (spec.IsStep (spec.at_round frame operand) stack.old.items stack.new.items) }
{
    match frame {
        Frame::Bracket => Ok(Some(Mode::After(bracket_of(operand)))),
        Frame::IfSecond(a, b) => Ok(Some(Mode::After(if_expr_of(alloc, a, b, operand)?))),
        Frame::Convert(to) => Ok(Some(Mode::After(convert_of(alloc, to, operand)?))),
        Frame::IndexSet(kind, groups, names) => set_at_round(stack, kind, groups, names, operand),
        Frame::IndexCondition(kind, groups) => condition_at_round(
            alloc, stack, kind, groups, operand,
        ),
        other => at_bracket(TokenKind::CloseRound, other, operand),
    }
}

/// A bar behind the last set of an index.
fn set_at_bar(
    stack: &mut Vec<Frame>,
    kind: IndexKind,
    groups: Groups,
    names: Items<SourceText>,
    operand: Operand,
) -> Result<Option<Mode>, NoMemory>
    ensures { IfOk result
        (spec.IsStep (spec.set_at_bar kind groups names operand) stack.old.items stack.new.items) }
{
    match set_read(groups, names, operand)? {
        Some(groups) => opened(stack, Frame::IndexCondition(kind, groups), Mode::Want),
        None => Ok(None),
    }
}

/// The innermost frame takes the operand at a bar.
pub(crate) fn at_bar(
    stack: &mut Vec<Frame>,
    frame: Frame,
    operand: Operand,
) -> Result<Option<Mode>, NoMemory>
    ensures { IfOk result
        (spec.IsStep (spec.at_bar frame operand) stack.old.items stack.new.items) }
{
    match frame {
        Frame::IndexSet(kind, groups, names) => set_at_bar(stack, kind, groups, names, operand),
        other => {
            let_both_go(other, operand);
            Ok(None)
        }
    }
}
