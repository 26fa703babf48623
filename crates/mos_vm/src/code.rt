//! Code by its addresses: what begins at each byte.
ghost use Rattle.std.specs.Prelude.{◌≡◌, ◌++◌, None, IfOk, OnOk, replicate};
ghost use Rattle.mos_vm.specs.ByAddress.{by_address, cells_of, found_at, target};

use bim_code::Instruction;
use mos_text::NoMemory;
use std::alloc::Global;

/// For each byte of the code the instruction that begins there, if one does.
pub(crate) fn by_address(
    alloc: Global,
    code: &[Instruction],
) -> Result<Vec<Option<Instruction>>, NoMemory>
    ensures { IfOk result (λ cells. cells.items ≡ by_address code.now) }
{
    let mut cells = Vec::new(alloc);
    for instruction in code {
        push_one(&mut cells, *instruction)?;
    }
    Ok(cells)
}

fn push_one(cells: &mut Vec<Option<Instruction>>, instruction: Instruction) -> Result<(), NoMemory>
    ensures { OnOk result (cells.new.items ≡ cells.old.items ++ cells_of instruction) }
{
    cells.push(Some(instruction))?;
    push_none(cells, instruction.width() - 1)
}

fn push_none(cells: &mut Vec<Option<Instruction>>, many: u32) -> Result<(), NoMemory>
    ensures { OnOk result (cells.new.items ≡ cells.old.items ++ replicate many None) }
{
    for _byte in 0..many {
        cells.push(None)?;
    }
    Ok(())
}

/// The instruction that begins at an address.
pub(crate) fn found_at(cells: &[Option<Instruction>], address: u32) -> Option<Instruction>
    ensures { result ≡ found_at cells.now address }
{
    match cells.get(address as usize) {
        Some(begun) => *begun,
        None => None,
    }
}

/// The address that an instruction names, or the one behind it.
pub(crate) fn target(instruction: Instruction, next: u32) -> u32
    ensures { result ≡ target instruction next }
{
    match instruction {
        Instruction::Jump(address) | Instruction::JumpIf(address) | Instruction::JumpNot(address) =>
            address,
        Instruction::Tick
        | Instruction::PushInt(_)
        | Instruction::PushBool(_)
        | Instruction::PushText(_)
        | Instruction::LoadGlobal(_)
        | Instruction::StoreGlobal(_)
        | Instruction::Swap
        | Instruction::Compare(_) => next,
        Instruction::Add
        | Instruction::Subtract
        | Instruction::Show
        | Instruction::Write
        | Instruction::Line
        | Instruction::End
        | Instruction::Fault(_) => next,
    }
}
