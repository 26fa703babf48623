//! The code of statements.
ghost use Rattle.std.specs.Prelude.{◌≡◌, ◌++◌, ◌∷◌, [], ◌<◌, ◌+◌, ◌^◌, OnOk, map};
ghost use Rattle.mos_meaning.specs.Syntax.{write};
ghost use Rattle.mos_meaning.specs.Sources.{expression, shown_of, core_of, core_of_top, block, block_of, assignment};
ghost use Rattle.bim_code.specs.Rows.{width};
ghost use Rattle.bim_compile.specs.Built.{IsBuilt, AreBuilt, IsBuiltStatement, AreBuiltArms, IsBuiltBlock, IsIf, IsLoop, arms_in};
ghost use Rattle.bim_compile.specs.Compiled.{at_line};
ghost use Rattle.bim_compile.specs.Parts.{HasRoom, Emits, test_part, arguments_part, statement_part, closed_part, arms_part, block_part};

use crate::context::Context;
use crate::draft::{Draft, JumpTargets};
use crate::ends::{end_of_block, end_of_expression, end_of_statement};
use crate::expressions::emit_expression;
use bim_code::Instruction;
use mos_text::NoMemory;
use mos_tree::{Assignment, Expr, Reference, Statement, Top};
use std::alloc::Global;

/// Adds the code of the statements of a model, in their order.
pub(crate) fn emit_tops(
    alloc: Global,
    draft: &mut Draft,
    context: &Context<'_>,
    targets: JumpTargets,
    tops: &[Top],
) -> Result<(), NoMemory>
    requires built { IsBuiltBlock (block (map core_of_top tops.now)) }
    requires room { HasRoom context.now
        (block_part context.now targets (block (map core_of_top tops.now))) draft.old }
    ensures { OnOk result (Emits (block_part context.now targets (block (map core_of_top tops.now)))
        draft.old draft.new) }
{
    for top in tops {
        emit_top(alloc, draft, context, targets, top)?;
    }
    Ok(())
}

fn emit_top(
    alloc: Global,
    draft: &mut Draft,
    context: &Context<'_>,
    targets: JumpTargets,
    top: &Top,
) -> Result<(), NoMemory>
    requires built { IsBuiltStatement (core_of_top top.now) }
    requires room { HasRoom context.now (statement_part context.now targets (core_of_top top.now))
        draft.old }
    ensures { OnOk result (Emits (statement_part context.now targets (core_of_top top.now))
        draft.old draft.new) }
{
    match top {
        Top::Statement(statement) => emit_statement(alloc, draft, context, targets, statement),
        _ => unreachable!(),
    }
}

#[cycle(emits)]
fn emit_statement(
    alloc: Global,
    draft: &mut Draft,
    context: &Context<'_>,
    targets: JumpTargets,
    statement: &Statement,
) -> Result<(), NoMemory>
    requires built { IsBuiltStatement (core_of statement.now) }
    requires room { HasRoom context.now
        (statement_part context.now targets (core_of statement.now)) draft.old }
    ensures { OnOk result (Emits (statement_part context.now targets (core_of statement.now))
        draft.old draft.new) }
{
    match statement {
        Statement::Assign {
            line,
            target,
            operator,
            value,
        } => emit_assignment(alloc, draft, context, *line, target, *operator, value),
        Statement::Call {
            line,
            name,
            arguments,
        } => {
            let newline = name.as_str() == "writeln";
            emit_write(alloc, draft, context, *line, newline, arguments.as_slice())
        }
        Statement::If { line, .. } => {
            let end = end_of_statement(draft.at, statement);
            draft.put(*line, Instruction::Tick)?;
            emit_arms(alloc, draft, context, end, targets, statement)
        }
        Statement::While { .. } => emit_loop(alloc, draft, context, targets, statement),
        Statement::Do { body, .. } => emit_block(alloc, draft, context, targets, body.as_slice()),
        Statement::Break { line } => {
            draft.put_all(
                *line,
                &[Instruction::Tick, Instruction::Jump(targets.break_)],
            )
        }
        Statement::Next { line } => {
            draft.put_all(
                *line,
                &[Instruction::Tick, Instruction::Jump(targets.next_)],
            )
        }
        _ => unreachable!(),
    }
}

/// Adds the code of the arms of an `if`, which ends at this address.
#[cycle(emits)]
fn emit_arms(
    alloc: Global,
    draft: &mut Draft,
    context: &Context<'_>,
    end: u32,
    targets: JumpTargets,
    statement: &Statement,
) -> Result<(), NoMemory>
    requires choice { IsIf (core_of statement.now) }
    requires built { AreBuiltArms (arms_in (core_of statement.now)) }
    requires room { HasRoom context.now
        (arms_part context.now end targets (arms_in (core_of statement.now))) draft.old }
    ensures { OnOk result (Emits
        (arms_part context.now end targets (arms_in (core_of statement.now)))
        draft.old draft.new) }
{
    let Statement::If {
        arms,
        otherwise,
        ..
    } = statement
    else {
        unreachable!()
    };
    for arm in arms.as_slice() {
        emit_expression(alloc, draft, context, arm.line, &arm.condition)?;
        let other = end_of_block(draft.at + 5, arm.body.as_slice()) + 5;
        draft.put(arm.line, Instruction::JumpNot(other))?;
        emit_block(alloc, draft, context, targets, arm.body.as_slice())?;
        draft.put(arm.line, Instruction::Jump(end))?;
    }
    emit_block(alloc, draft, context, targets, otherwise.as_slice())
}

/// Adds the code of a `while`.
#[cycle(emits)]
fn emit_loop(
    alloc: Global,
    draft: &mut Draft,
    context: &Context<'_>,
    targets: JumpTargets,
    statement: &Statement,
) -> Result<(), NoMemory>
    requires repeats { IsLoop (core_of statement.now) }
    requires built { IsBuiltStatement (core_of statement.now) }
    requires room { HasRoom context.now (statement_part context.now targets (core_of statement.now))
        draft.old }
    ensures { OnOk result (Emits (statement_part context.now targets (core_of statement.now))
        draft.old draft.new) }
{
    let Statement::While {
        line,
        condition,
        body,
    } = statement
    else {
        unreachable!()
    };
    let pass = draft.at + 1 + 5;
    let test = end_of_statement(pass + 1, body.get());
    let out = end_of_expression(test, condition) + 5;
    emit_loop_entry(draft, *line, test)?;
    emit_statement(
        alloc,
        draft,
        context,
        JumpTargets {
            break_: out,
            next_: test,
        },
        body.get(),
    )?;
    emit_test(alloc, draft, context, *line, condition, pass)?;
    Ok(())
}

/// Adds the code that leads to the first test of a loop, and the tick of a pass.
fn emit_loop_entry(draft: &mut Draft, line: u32, test: u32) -> Result<(), NoMemory>
    requires { draft.old.at + 13 < 2 ^ 32 }
    ensures code { OnOk result (draft.new.code ≡ draft.old.code
        ++ at_line line Instruction.Tick ∷ at_line line (Instruction.Jump test)
        ∷ at_line line Instruction.Tick ∷ []) }
    ensures constants { OnOk result (draft.new.constants ≡ draft.old.constants) }
    ensures at { OnOk result (draft.new.at ≡ draft.old.at + 1 + 5 + 1) }
{
    let jump = Instruction::Jump(test);
    draft.put_all(line, &[Instruction::Tick, jump, Instruction::Tick])
}

/// Adds the code that goes back for another pass where the condition is true.
fn emit_test(
    alloc: Global,
    draft: &mut Draft,
    context: &Context<'_>,
    line: u32,
    condition: &Expr,
    pass: u32,
) -> Result<(), NoMemory>
    requires built { IsBuilt (expression condition.now) }
    requires room { HasRoom context.now
        (test_part context.now line pass (expression condition.now)) draft.old }
    ensures { OnOk result (Emits (test_part context.now line pass (expression condition.now))
        draft.old draft.new) }
{
    emit_expression(alloc, draft, context, line, condition)?;
    draft.put(line, Instruction::JumpIf(pass))
}

#[cycle(emits)]
fn emit_block(
    alloc: Global,
    draft: &mut Draft,
    context: &Context<'_>,
    targets: JumpTargets,
    all: &[Statement],
) -> Result<(), NoMemory>
    requires built { IsBuiltBlock (block_of all.now) }
    requires room { HasRoom context.now (block_part context.now targets (block_of all.now))
        draft.old }
    ensures { OnOk result (Emits (block_part context.now targets (block_of all.now))
        draft.old draft.new) }
{
    for statement in all {
        emit_statement(alloc, draft, context, targets, statement)?;
    }
    Ok(())
}

/// Adds the code that evaluates, prints and holds each argument, and writes them.
fn emit_write(
    alloc: Global,
    draft: &mut Draft,
    context: &Context<'_>,
    line: u32,
    newline: bool,
    all: &[Expr],
) -> Result<(), NoMemory>
    requires built { AreBuilt (shown_of (map expression all.now)) }
    requires room { HasRoom context.now
        (closed_part context.now (write line newline (shown_of (map expression all.now))))
        draft.old }
    ensures { OnOk result (Emits
        (closed_part context.now (write line newline (shown_of (map expression all.now))))
        draft.old draft.new) }
{
    draft.put(line, Instruction::Tick)?;
    emit_arguments(alloc, draft, context, line, all)?;
    draft.put(line, Instruction::PushBool(newline as u32))?;
    draft.put(line, Instruction::Line)
}

fn emit_arguments(
    alloc: Global,
    draft: &mut Draft,
    context: &Context<'_>,
    line: u32,
    all: &[Expr],
) -> Result<(), NoMemory>
    requires built { AreBuilt (shown_of (map expression all.now)) }
    requires room { HasRoom context.now
        (arguments_part context.now line (shown_of (map expression all.now))) draft.old }
    ensures { OnOk result (Emits
        (arguments_part context.now line (shown_of (map expression all.now))) draft.old draft.new) }
{
    for written in all {
        emit_expression(alloc, draft, context, line, written)?;
        draft.put(line, Instruction::Show)?;
        draft.put(line, Instruction::Write)?;
    }
    Ok(())
}

/// Adds the code of `:=`, `+=` or `-=`.
fn emit_assignment(
    alloc: Global,
    draft: &mut Draft,
    context: &Context<'_>,
    line: u32,
    target: &Reference,
    operator: Assignment,
    value: &Expr,
) -> Result<(), NoMemory>
    requires built { IsBuiltStatement (assignment line target.now operator (expression value.now)) }
    requires room { HasRoom context.now (closed_part context.now
        (assignment line target.now operator (expression value.now))) draft.old }
    ensures { OnOk result (Emits (closed_part context.now
        (assignment line target.now operator (expression value.now))) draft.old draft.new) }
{
    let Reference::Name(name) = target else {
        unreachable!()
    };
    let slot = context.slot(name.text());
    draft.put(line, Instruction::Tick)?;
    emit_expression(alloc, draft, context, line, value)?;
    match operator {
        Assignment::Set => {}
        Assignment::Add => emit_change(draft, line, slot, Instruction::Add)?,
        Assignment::Take => emit_change(draft, line, slot, Instruction::Subtract)?,
    }
    draft.put(line, Instruction::StoreGlobal(slot))
}

/// Adds the code that makes the new value of a variable of the old one and of that on top.
fn emit_change(
    draft: &mut Draft,
    line: u32,
    slot: u32,
    operator: Instruction,
) -> Result<(), NoMemory>
    requires room { draft.old.at + 17 < 2 ^ 32 }
    requires operator { width operator ≡ 1 }
    ensures code { OnOk result (draft.new.code ≡ draft.old.code
        ++ at_line line (Instruction.LoadGlobal slot) ∷ at_line line Instruction.Swap
        ∷ at_line line operator ∷ []) }
    ensures constants { OnOk result (draft.new.constants ≡ draft.old.constants) }
    ensures at { OnOk result (draft.new.at ≡ draft.old.at + 5 + 1 + 1) }
{
    draft.put_all(
        line,
        &[Instruction::LoadGlobal(slot), Instruction::Swap, operator],
    )
}
