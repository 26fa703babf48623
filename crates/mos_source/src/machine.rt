//! The reader of pieces: a stack of the blocks that are open.
ghost use Rattle.std.specs.Prelude.{◌≡◌, [], ◌∷◌, ◌<◌, length, true, IfOk, OnOk, MatchOption};
ghost use Rattle.mos_source.specs.Machine as spec;
ghost use Rattle.mos_source.specs.Limits as limits;
ghost use Rattle.mos_source.specs.Sources.{limit};

use crate::adding::{is_loop, loop_with_body, with_part, with_statement};
use crate::closing::closed_by;
use crate::continuing::continued_by;
use crate::frame::{Frame, Part, place_of};
use crate::opening::{opened_by, stands_alone};
use crate::place::{Role, role_at};
use mos_text::{Kind, NoMemory, SourceText, let_go};
use mos_tree::{Form, PieceForm, Statement, Tree, piece_kind_of};
use std::alloc::Global;

/// Opens a block.
fn push(stack: &mut Vec<Frame>, frame: Frame) -> Result<(), NoMemory>
    ensures { OnOk result (spec.stack_of stack.new.items ≡ frame ∷ spec.stack_of stack.old.items) }
{
    stack.push(frame)?;
    Ok(())
}

/// Takes off the innermost block.
fn pop(stack: &mut Vec<Frame>) -> Option<Frame>
    ensures { MatchOption result
        ((spec.stack_of stack.old.items ≡ []) × (spec.stack_of stack.new.items ≡ []))
        (λ frame. spec.stack_of stack.old.items ≡ frame ∷ spec.stack_of stack.new.items) }
{
    stack.pop()
}

/// Opens the block, if there is one.
fn push_frame(stack: &mut Vec<Frame>, frame: Option<Frame>) -> Result<(), NoMemory>
    ensures { OnOk result (spec.stack_of stack.new.items
        ≡ spec.push_frame frame (spec.stack_of stack.old.items)) }
{
    match frame {
        Some(frame) => push(stack, frame),
        None => Ok(()),
    }
}

/// Whether one statement ends the innermost block.
fn top_is_loop(stack: &[Frame]) -> bool
    ensures { result ≡ spec.top_is_loop (spec.stack_of stack.now) }
{
    match stack {
        [.., frame] => is_loop(frame),
        [] => false,
    }
}

/// Gives the statement to the innermost block, which is no loop.
fn give_statement(
    alloc: Global,
    stack: &mut Vec<Frame>,
    statement: Statement,
) -> Result<(), NoMemory>
    ensures { OnOk result (spec.stack_of stack.new.items
        ≡ spec.give_statement statement (spec.stack_of stack.old.items)) }
{
    match pop(stack) {
        Some(frame) => {
            let next = with_statement(alloc, frame, statement)?;
            push(stack, next)
        }
        None => {
            let_go(statement);
            Ok(())
        }
    }
}

/// The loop that the statement ends, which is the innermost block.
fn end_loop(
    alloc: Global,
    stack: &mut Vec<Frame>,
    statement: Statement,
) -> Result<Statement, NoMemory>
    requires { spec.top_is_loop (spec.stack_of stack.old.items) ≡ true }
    ensures value { IfOk result (λ outer.
        spec.add_statement statement (spec.stack_of stack.old.items)
        ≡ spec.add_statement outer (spec.stack_of stack.new.items)) }
    ensures lower { length (spec.stack_of stack.new.items)
        < length (spec.stack_of stack.old.items) }
{
    match pop(stack) {
        Some(frame) => loop_with_body(alloc, frame, statement),
        None => Ok(statement),
    }
}

/// Gives the statement to the innermost block, with all loops that it ends.
fn add_statement(
    alloc: Global,
    stack: &mut Vec<Frame>,
    statement: Statement,
) -> Result<(), NoMemory>
    ensures { OnOk result (spec.stack_of stack.new.items
        ≡ spec.add_statement statement (spec.stack_of stack.old.items)) }
{
    let mut statement = statement;
    while top_is_loop(stack) {
        statement = end_loop(alloc, stack, statement)?;
    }
    give_statement(alloc, stack, statement)
}

/// Gives a part that is no statement to the innermost block.
fn add_other(alloc: Global, stack: &mut Vec<Frame>, part: Part) -> Result<(), NoMemory>
    ensures { OnOk result (spec.stack_of stack.new.items
        ≡ spec.add_other part (spec.stack_of stack.old.items)) }
{
    match pop(stack) {
        Some(frame) => {
            let next = with_part(alloc, frame, part)?;
            push(stack, next)
        }
        None => {
            let_go(part);
            Ok(())
        }
    }
}

/// Gives the part, if there is one, to the innermost block.
fn add(alloc: Global, stack: &mut Vec<Frame>, part: Option<Part>) -> Result<(), NoMemory>
    ensures { OnOk result (spec.stack_of stack.new.items
        ≡ spec.add part (spec.stack_of stack.old.items)) }
{
    match part {
        None => Ok(()),
        Some(Part::Statement(statement)) => add_statement(alloc, stack, statement),
        Some(Part::Source(tree)) => push(stack, Frame::End(tree)),
        Some(other) => add_other(alloc, stack, other),
    }
}

fn continue_block(
    alloc: Global,
    stack: &mut Vec<Frame>,
    line: u32,
    form: Form,
) -> Result<(), NoMemory>
    ensures { OnOk result (spec.stack_of stack.new.items
        ≡ spec.continue_block line form (spec.stack_of stack.old.items)) }
{
    match pop(stack) {
        Some(frame) => {
            let next = continued_by(alloc, line, form, frame)?;
            push(stack, next)
        }
        None => {
            let_go(form);
            Ok(())
        }
    }
}

fn close(alloc: Global, stack: &mut Vec<Frame>, line: u32, form: Form) -> Result<(), NoMemory>
    ensures { OnOk result (spec.stack_of stack.new.items
        ≡ spec.close line form (spec.stack_of stack.old.items)) }
{
    match pop(stack) {
        Some(frame) => {
            let part = closed_by(alloc, line, form, frame)?;
            add(alloc, stack, part)
        }
        None => {
            let_go(form);
            Ok(())
        }
    }
}

/// Takes the piece, which does this at its place.
fn enter(
    alloc: Global,
    stack: &mut Vec<Frame>,
    role: Role,
    line: u32,
    form: Form,
) -> Result<(), NoMemory>
    ensures { OnOk result (spec.stack_of stack.new.items
        ≡ spec.enter role line form (spec.stack_of stack.old.items)) }
{
    match role {
        Role::Opens => {
            let frame = opened_by(alloc, line, form);
            push_frame(stack, frame)
        }
        Role::Continues => continue_block(alloc, stack, line, form),
        Role::StandsAlone => {
            let part = stands_alone(alloc, line, form);
            add(alloc, stack, part)
        }
        Role::Closes => close(alloc, stack, line, form),
    }
}

fn is_jobs(name: &SourceText) -> bool
    ensures { result ≡ limits.is_jobs name.now }
{
    name.as_bytes() == b"mmjobs".as_slice()
}

fn is_no_implicit(name: &SourceText) -> bool
    ensures { result ≡ limits.is_no_implicit name.now }
{
    name.as_bytes() == b"noimplicit".as_slice()
}

/// The limit that another module breaks.
fn module_limit(alloc: Global, modules: &[SourceText]) -> Result<Option<Kind>, NoMemory>
    ensures { IfOk result (λ kind. kind ≡ limits.module_limit modules.now) }
{
    let mut rest = modules;
    while let [module, after @ ..] = rest {
        if !is_jobs(module) {
            return Ok(Some(Kind::Module(module.text().copy(alloc)?)));
        }
        rest = after;
    }
    Ok(None)
}

fn option_limit(alloc: Global, name: &SourceText) -> Result<Option<Kind>, NoMemory>
    ensures { IfOk result (λ kind. kind ≡ limits.option_limit name.now) }
{
    if is_no_implicit(name) {
        return Ok(None);
    }
    Ok(Some(Kind::Out(name.text().copy(alloc)?)))
}

/// The limit that the piece breaks wherever it stands.
fn own_limit(alloc: Global, form: &Form) -> Result<Option<Kind>, NoMemory>
    ensures { IfOk result (λ kind. kind ≡ limits.own_limit form.now) }
{
    match form {
        Form::TooHigh(_) => Ok(Some(Kind::Deep)),
        Form::Uses(modules) => module_limit(alloc, modules.as_slice()),
        Form::Options(name) => option_limit(alloc, name),
        _ => Ok(None),
    }
}

/// The limit that one block more breaks, inside so many and the model.
fn block_limit(role: Role, blocks: usize) -> Option<Kind>
    ensures { result ≡ spec.block_limit limit role blocks }
{
    match role {
        Role::Opens => { if 100 < blocks { Some(Kind::Deep) } else { None } }
        _ => None,
    }
}

/// The limit that the piece breaks.
fn broken(alloc: Global, role: Role, blocks: usize, form: &Form) -> Result<Option<Kind>, NoMemory>
    ensures { IfOk result (λ kind. kind ≡ spec.broken_limit limit role blocks form.now) }
{
    match own_limit(alloc, form)? {
        Some(kind) => Ok(Some(kind)),
        None => Ok(block_limit(role, blocks)),
    }
}

/// Takes the piece in this role, unless it breaks this limit.
fn take_unless(
    alloc: Global,
    stack: &mut Vec<Frame>,
    found: Option<Kind>,
    role: Role,
    line: u32,
    form: Form,
) -> Result<Option<Kind>, NoMemory>
    ensures { IfOk result (λ wrong.
        spec.outcome found (spec.enter role line form (spec.stack_of stack.old.items))
        ≡ spec.outcome wrong (spec.stack_of stack.new.items)) }
{
    match found {
        Some(kind) => {
            let_go(form);
            Ok(Some(kind))
        }
        None => {
            enter(alloc, stack, role, line, form)?;
            Ok(None)
        }
    }
}

/// Takes the piece in this role, or says what is wrong.
#[tactic(auto, unfolding(crate::specs::Machine::step_as))]
fn step_as(
    alloc: Global,
    stack: &mut Vec<Frame>,
    role: Role,
    line: u32,
    form: Form,
) -> Result<Option<Kind>, NoMemory>
    ensures { IfOk result (λ wrong.
        spec.step_as limit role line form (spec.stack_of stack.old.items)
        ≡ spec.outcome wrong (spec.stack_of stack.new.items)) }
{
    match broken(alloc, role, stack.len(), &form) {
        Ok(kind) => take_unless(alloc, stack, kind, role, line, form),
        Err(refused) => {
            let_go(form);
            Err(refused)
        }
    }
}

/// Takes the piece, or says what is wrong.
#[tactic(auto, unfolding(crate::specs::Machine::step))]
pub(crate) fn step(
    alloc: Global,
    stack: &mut Vec<Frame>,
    piece: PieceForm,
) -> Result<Option<Kind>, NoMemory>
    ensures { IfOk result (λ wrong. spec.step limit (spec.stack_of stack.old.items) piece
        ≡ spec.outcome wrong (spec.stack_of stack.new.items)) }
{
    let PieceForm { line, form } = piece;
    match role_at(place_of(stack), piece_kind_of(&form)) {
        Some(role) => step_as(alloc, stack, role, line, form),
        None => {
            let_go(form);
            Ok(Some(Kind::Syntax))
        }
    }
}

/// The tree, where the stack is that of a whole source.
pub(crate) fn finished_tree(stack: &mut Vec<Frame>) -> Option<Tree>
    ensures { result ≡ spec.finished_tree (spec.stack_of stack.old.items) }
{
    match pop(stack) {
        Some(Frame::End(tree)) => Some(tree),
        Some(other) => {
            let_go(other);
            None
        }
        None => None,
    }
}
