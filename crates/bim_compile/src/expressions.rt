//! The code of expressions.
ghost use Rattle.std.specs.Prelude.{◌≡◌, OnOk, MatchOption, Some, None};
ghost use Rattle.mos_value.specs.Answers.{Operator};
ghost use Rattle.mos_meaning.specs.Sources.{expression, operator_of};
ghost use Rattle.bim_compile.specs.Built.{IsBuilt};
ghost use Rattle.bim_compile.specs.Compiled.{operator_code};
ghost use Rattle.bim_compile.specs.Parts.{HasRoom, Emits, expression_part};

use crate::context::Context;
use crate::draft::Draft;
use bim_code::{Comparison, Instruction};
use mos_text::NoMemory;
use mos_tree::{BinaryOperator, Expr};
use std::alloc::Global;

/// Adds the code that leaves the value of the expression on the stack.
pub(crate) fn emit_expression(
    alloc: Global,
    draft: &mut Draft,
    context: &Context<'_>,
    line: u32,
    written: &Expr,
) -> Result<(), NoMemory>
    requires built { IsBuilt (expression written.now) }
    requires room { HasRoom context.now
        (expression_part context.now line (expression written.now)) draft.old }
    ensures { OnOk result (Emits (expression_part context.now line (expression written.now))
        draft.old draft.new) }
{
    match written {
        Expr::Integer(number) => draft.put(line, Instruction::PushInt(*number)),
        Expr::Truth(truth) => draft.put(line, Instruction::PushBool(*truth as u32)),
        Expr::Text(text) => draft.put_text(alloc, line, text.text()),
        Expr::Name(name) => draft.put(line, Instruction::LoadGlobal(context.slot(name.text()))),
        Expr::Binary(operator, left, right) => {
            emit_expression(alloc, draft, context, line, left.get())?;
            emit_expression(alloc, draft, context, line, right.get())?;
            match instruction_of(*operator) {
                Some(instruction) => draft.put(line, instruction),
                None => unreachable!(),
            }
        }
        _ => unreachable!(),
    }
}

fn instruction_of(operator: BinaryOperator) -> Option<Instruction>
    ensures { MatchOption result (operator_of operator
        ≡ None) (λ i. (o : Operator) × (operator_of operator ≡ Some o) × (i ≡ operator_code o)) }
{
    match operator {
        BinaryOperator::Plus => Some(Instruction::Add),
        BinaryOperator::Minus => Some(Instruction::Subtract),
        BinaryOperator::Equal => Some(Instruction::Compare(Comparison::Equal)),
        BinaryOperator::NotEqual => Some(Instruction::Compare(Comparison::NotEqual)),
        BinaryOperator::Less => Some(Instruction::Compare(Comparison::Less)),
        BinaryOperator::AtMost => Some(Instruction::Compare(Comparison::AtMost)),
        BinaryOperator::Greater => Some(Instruction::Compare(Comparison::Greater)),
        BinaryOperator::AtLeast => Some(Instruction::Compare(Comparison::AtLeast)),
        _ => None,
    }
}
