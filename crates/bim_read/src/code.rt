//! The code's part of the file.
ghost use Rattle.std.specs.Prelude.{◌≡◌, ◌≤◌, IfOk};
ghost use Rattle.bim_code.specs.Rows.{width, row_of};
ghost use Rattle.bim_read.specs.Reading.{Finds};
ghost use Rattle.bim_read.specs.Code as code;

use crate::cursor::{Cursor, ends_early, wrong};
use crate::fault::{FaultKind, ReadFault};
use bim_code::{Comparison, Instruction, Operands};
use sqlite_items::Items;
use std::alloc::Global;

/// All instructions, each once; their operands are left open.
pub const INSTRUCTIONS: [Instruction; 23] = [
    Instruction::Tick,
    Instruction::PushInt(0),
    Instruction::PushBool(0),
    Instruction::PushText(0),
    Instruction::LoadGlobal(0),
    Instruction::StoreGlobal(0),
    Instruction::Swap,
    Instruction::Add,
    Instruction::Subtract,
    Instruction::Show,
    Instruction::Compare(Comparison::Equal),
    Instruction::Compare(Comparison::NotEqual),
    Instruction::Compare(Comparison::Less),
    Instruction::Compare(Comparison::AtMost),
    Instruction::Compare(Comparison::Greater),
    Instruction::Compare(Comparison::AtLeast),
    Instruction::Jump(0),
    Instruction::JumpIf(0),
    Instruction::JumpNot(0),
    Instruction::Write,
    Instruction::Line,
    Instruction::End,
    Instruction::Fault(0),
];

fn first_with(byte: u8, all: &[Instruction]) -> Option<Instruction>
    ensures { result ≡ code.first_with byte all.now }
{
    for i in all {
        if i.code() == byte {
            return Some(*i);
        }
    }
    None
}

#[tactic(auto, unfolding(crate::specs::Code::instruction_of))]
fn instruction_of(byte: u8) -> Option<Instruction>
    ensures { result ≡ code.instruction_of byte }
{
    first_with(byte, &INSTRUCTIONS)
}

fn with_operand(i: Instruction, operand: u32) -> Instruction
    ensures equal { result ≡ code.with_operand i operand }
    ensures width { width result ≡ width i }
{
    match i {
        Instruction::PushInt(_) => Instruction::PushInt(operand.cast_signed()),
        Instruction::PushBool(_) => Instruction::PushBool(operand),
        Instruction::PushText(_) => Instruction::PushText(operand),
        Instruction::LoadGlobal(_) => Instruction::LoadGlobal(operand),
        Instruction::StoreGlobal(_) => Instruction::StoreGlobal(operand),
        Instruction::Jump(_) => Instruction::Jump(operand),
        Instruction::JumpIf(_) => Instruction::JumpIf(operand),
        Instruction::JumpNot(_) => Instruction::JumpNot(operand),
        Instruction::Fault(_) => Instruction::Fault(operand),
        Instruction::Tick | Instruction::Swap | Instruction::Add => i,
        Instruction::Subtract | Instruction::Compare(_) | Instruction::Show => i,
        Instruction::Write | Instruction::Line | Instruction::End => i,
    }
}

fn read_operands(i: Instruction, from: &mut Cursor<'_>) -> Result<Instruction, ReadFault>
    ensures found { Finds result from.new (code.operands_at i (row_of i).operands from.old) }
    ensures width { IfOk result (λ read. width read ≡ width i) }
{
    match i.operands() {
        Operands::None => Ok(i),
        Operands::One(_) | Operands::Two(_, _) => {
            let operand = from.word()?;
            Ok(with_operand(i, operand))
        }
    }
}

fn read_begun(
    i: Instruction,
    left: usize,
    size: u32,
    from: &mut Cursor<'_>,
) -> Result<Instruction, ReadFault>
    ensures found { Finds result from.new (code.begun_at i left size from.old) }
    ensures width { IfOk result (λ read. width read ≤ size) }
{
    if size < i.width() {
        Err(wrong(left, FaultKind::Limit))
    } else {
        read_operands(i, from)
    }
}

#[tactic(auto, unfolding(crate::specs::Code::instruction_in))]
fn read_instruction(size: u32, from: &mut Cursor<'_>) -> Result<Instruction, ReadFault>
    ensures found { Finds result from.new (code.instruction_in size from.old) }
    ensures width { IfOk result (λ read. width read ≤ size) }
{
    let left = from.left();
    match instruction_of(from.byte()?) {
        Some(i) => read_begun(i, left, size, from),
        None => Err(wrong(left, FaultKind::Unknown)),
    }
}

#[tactic(auto, using(crate::proofs::Fronts::front_none, crate::proofs::Fronts::code_more, crate::proofs::Fronts::code_wrong, crate::proofs::Fronts::code_whole, crate::proofs::Fronts::code_over))]
fn read_instructions(
    alloc: Global,
    most: u32,
    size: u32,
    from: &mut Cursor<'_>,
) -> Result<Items<Instruction>, ReadFault>
    ensures { Finds result from.new (code.instructions_at most size from.old) }
{
    let mut code = Items::new(alloc);
    let mut size = size;
    for _ in 0..most {
        if size == 0 {
            return Ok(code);
        }
        let i = read_instruction(size, from)?;
        code.push(i)?;
        size -= i.width();
    }
    if size == 0 {
        Ok(code)
    } else {
        Err(wrong(from.left(), FaultKind::Limit))
    }
}

/// The code, behind its length.
#[tactic(auto, unfolding(crate::specs::Code::code_at))]
pub fn read_code(alloc: Global, from: &mut Cursor<'_>) -> Result<Items<Instruction>, ReadFault>
    ensures { Finds result from.new (code.code_at from.old) }
{
    let size = from.word()?;
    if from.left() < size as usize {
        Err(ends_early())
    } else {
        read_instructions(alloc, 262144, size, from)
    }
}
