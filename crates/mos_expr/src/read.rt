//! What all words come to.
ghost use Rattle.std.specs.Prelude.{◌≡◌, [], IfOk};
ghost use Rattle.mos_expr.specs.Machine as spec;
ghost use Rattle.mos_expr.specs.Reader as reads;

use crate::frame::{Frame, IndexKind, ListKind, Mode};
use crate::machine::{fold_frames, let_both_go};
use crate::operand::{Operand, Parts, WholeIndex, leaf_of};
use crate::parts::{
    call_of, conditioned_index_of, no_groups, no_parts, parts_with, set_read, whole_index_of,
};
use crate::reader::step;
use crate::stack::{pop, push};
use mos_scan::Word;
use mos_text::{NoMemory, let_go};
use mos_tree::Expr;
use sqlite_items::Items;
use std::alloc::Global;

/// The operand that ends with the last word.
fn operand_at_end(mode: Mode) -> Option<Operand>
    ensures { result ≡ reads.operand_at_end mode }
{
    match mode {
        Mode::After(operand) => Some(operand),
        Mode::Named(name) => Some(leaf_of(Expr::Name(name))),
        Mode::Called(name, parts) => Some(call_of(name, parts)),
        other => {
            let_go(other);
            None
        }
    }
}

fn at_end(alloc: Global, stack: &mut Vec<Frame>, mode: Mode) -> Result<Option<Operand>, NoMemory>
    ensures { IfOk result
        (λ operand. reads.at_end mode (spec.stack_of stack.old.items)
        ≡ spec.fold_result_of operand (spec.stack_of stack.new.items)) }
{
    match operand_at_end(mode) {
        None => Ok(None),
        Some(operand) => fold_frames(alloc, stack, operand),
    }
}

/// What the words come to: an operand in the frames that are still open.
fn read(
    alloc: Global,
    stack: &mut Vec<Frame>,
    mode: Mode,
    words: &[Word],
) -> Result<Option<Operand>, NoMemory>
    ensures { IfOk result
        (λ operand. reads.read mode (spec.stack_of stack.old.items) words.now
        ≡ spec.fold_result_of operand (spec.stack_of stack.new.items)) }
{
    let mut mode = mode;
    let mut rest = words;
    while let [word, after @ ..] = rest {
        match step(alloc, stack, mode, word) {
            Err(refused) => return Err(refused),
            Ok(None) => return Ok(None),
            Ok(Some(next)) => mode = next,
        }
        rest = after;
    }
    at_end(alloc, stack, mode)
}

fn alone(operand: Operand, stack: &[Frame]) -> Option<Operand>
    ensures { result ≡ reads.alone operand (spec.stack_of stack.now) }
{
    match stack {
        [] => Some(operand),
        [.., _] => {
            let_go(operand);
            None
        }
    }
}

fn alone_in(
    alloc: Global,
    stack: &mut Vec<Frame>,
    words: &[Word],
) -> Result<Option<Operand>, NoMemory>
    ensures { stack.old.items ≡ [] → IfOk result (λ operand. reads.operand_of words.now ≡ operand) }
{
    match read(alloc, stack, Mode::Want, words) {
        Ok(None) => Ok(None),
        Ok(Some(operand)) => Ok(alone(operand, stack.as_slice())),
        Err(refused) => Err(refused),
    }
}

/// The operand that the words are.
pub(crate) fn operand_of(alloc: Global, words: &[Word]) -> Result<Option<Operand>, NoMemory>
    ensures { IfOk result (λ operand. reads.operand_of words.now ≡ operand) }
{
    let mut stack = Vec::new(alloc);
    let operand = alone_in(alloc, &mut stack, words);
    let_go(stack);
    operand
}

fn last(frame: Frame, outer: &[Frame]) -> Option<Frame>
    ensures { result ≡ reads.only_of frame (spec.stack_of outer.now) }
{
    match outer {
        [] => Some(frame),
        [.., _] => {
            let_go(frame);
            None
        }
    }
}

/// The one frame that is open.
fn only_frame(stack: &mut Vec<Frame>) -> Option<Frame>
    ensures { result ≡ reads.only_frame (spec.stack_of stack.old.items) }
{
    match pop(stack) {
        None => None,
        Some(frame) => last(frame, stack.as_slice()),
    }
}

fn last_of_list(operand: Operand, frame: Frame) -> Result<Option<Parts>, NoMemory>
    ensures { IfOk result (λ parts. reads.last_of_list operand frame ≡ parts) }
{
    match frame {
        Frame::InList(ListKind::Bare, parts) => Ok(Some(parts_with(parts, operand)?)),
        other => {
            let_both_go(other, operand);
            Ok(None)
        }
    }
}

fn parts_at_end(stack: &mut Vec<Frame>, operand: Operand) -> Result<Option<Parts>, NoMemory>
    ensures { IfOk result
        (λ parts. reads.list_at_end operand (spec.stack_of stack.old.items) ≡ parts) }
{
    match only_frame(stack) {
        None => {
            let_go(operand);
            Ok(None)
        }
        Some(frame) => last_of_list(operand, frame),
    }
}

fn parts_in(
    alloc: Global,
    stack: &mut Vec<Frame>,
    words: &[Word],
) -> Result<Option<Parts>, NoMemory>
    ensures { spec.stack_of stack.old.items ≡ reads.open_list → IfOk result (λ parts. reads.some_parts_of words.now ≡ parts) }
{
    match read(alloc, stack, Mode::Want, words) {
        Ok(None) => Ok(None),
        Ok(Some(operand)) => parts_at_end(stack, operand),
        Err(refused) => Err(refused),
    }
}

fn some_parts_of(alloc: Global, words: &[Word]) -> Result<Option<Parts>, NoMemory>
    ensures { IfOk result (λ parts. reads.some_parts_of words.now ≡ parts) }
{
    let mut stack = Vec::new(alloc);
    let parts = match push(&mut stack, Frame::InList(ListKind::Bare, no_parts(alloc))) {
        Ok(()) => parts_in(alloc, &mut stack, words),
        Err(refused) => Err(refused),
    };
    let_go(stack);
    parts
}

/// The expressions that the words are, with commas between them.
pub(crate) fn parts_of(alloc: Global, words: &[Word]) -> Result<Option<Parts>, NoMemory>
    ensures { IfOk result (λ parts. reads.parts_of words.now ≡ parts) }
{
    match words {
        [] => Ok(Some(no_parts(alloc))),
        [_, ..] => some_parts_of(alloc, words),
    }
}

/// The index of a loop, of which this is the last set or the condition.
fn last_of_index(
    alloc: Global,
    operand: Operand,
    frame: Frame,
) -> Result<Option<WholeIndex>, NoMemory>
    ensures { IfOk result (λ whole. reads.last_of_index operand frame ≡ whole) }
{
    match frame {
        Frame::IndexSet(IndexKind::Loop, groups, names) => match set_read(groups, names, operand)? {
            Some(groups) => Ok(Some(whole_index_of(groups))),
            None => Ok(None),
        },
        Frame::IndexCondition(IndexKind::Loop, groups) => {
            Ok(Some(conditioned_index_of(alloc, groups, operand)?))
        }
        other => {
            let_both_go(other, operand);
            Ok(None)
        }
    }
}

fn index_at_end(
    alloc: Global,
    stack: &mut Vec<Frame>,
    operand: Operand,
) -> Result<Option<WholeIndex>, NoMemory>
    ensures { IfOk result
        (λ whole. reads.index_at_end operand (spec.stack_of stack.old.items) ≡ whole) }
{
    match only_frame(stack) {
        None => {
            let_go(operand);
            Ok(None)
        }
        Some(frame) => last_of_index(alloc, operand, frame),
    }
}

fn index_in(
    alloc: Global,
    stack: &mut Vec<Frame>,
    words: &[Word],
) -> Result<Option<WholeIndex>, NoMemory>
    ensures { stack.old.items ≡ [] → IfOk result (λ whole. reads.whole_index_of_words words.now ≡ whole) }
{
    let mode = Mode::WantName(IndexKind::Loop, no_groups(alloc), Items::new(alloc));
    match read(alloc, stack, mode, words) {
        Ok(None) => Ok(None),
        Ok(Some(operand)) => index_at_end(alloc, stack, operand),
        Err(refused) => Err(refused),
    }
}

/// The index that the words are.
pub(crate) fn whole_index_of_words(
    alloc: Global,
    words: &[Word],
) -> Result<Option<WholeIndex>, NoMemory>
    ensures { IfOk result (λ whole. reads.whole_index_of_words words.now ≡ whole) }
{
    let mut stack = Vec::new(alloc);
    let whole = index_in(alloc, &mut stack, words);
    let_go(stack);
    whole
}
