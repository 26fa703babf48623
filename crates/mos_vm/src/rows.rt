//! What each instruction does with the operands, and what it asks for then: a function a row.
ghost use Rattle.std.specs.Prelude.{◌≡◌, [], ◌∷◌, IfOk};
ghost use Rattle.bim_machine.specs.Machine.{Work as Hand};
ghost use Rattle.bim_machine.specs.Instructions.{act_by_result, truth_of_operand, own_fault};
ghost use Rattle.mos_vm.specs.Rows.{Asks, AsksAnywhere, blank, act_of, result_of};

use crate::answers::{Answer, comparison, difference, printed_text, sum, text};
use crate::asked::{Asked, OwnStop, Place};
use crate::value::Value;
use crate::work::Work;
use bim_code::{Comparison, Image, Instruction};
use mos_text::{FaultKind, NoMemory, Scalar};
use std::alloc::Global;

/// Carries out an instruction over what is at hand, and says what it asks for.
pub(crate) fn carry_out(
    alloc: Global,
    work: &mut Work,
    image: &Image,
    globals: &[Value],
    instruction: Instruction,
) -> Result<Asked, NoMemory>
    ensures { IfOk result
        (λ asked. Asks image.now instruction [] (globals.now ∷ []) work.old asked work.new) }
{
    match instruction {
        Instruction::Tick => Ok(Asked::Ticks),
        Instruction::PushInt(number) => push_integer(work, number),
        Instruction::PushBool(number) => push_truth(work, number),
        Instruction::PushText(constant) => push_text(alloc, work, image, constant),
        Instruction::LoadGlobal(slot) => load(alloc, work, globals, slot),
        Instruction::StoreGlobal(slot) => Ok(store(work, slot)),
        Instruction::Swap => swap(work),
        Instruction::Add => add(work),
        Instruction::Subtract => subtract(work),
        Instruction::Compare(how) => compare(work, how),
        Instruction::Jump(_) => Ok(Asked::Jumps),
        Instruction::JumpIf(_) => Ok(jump_if(work)),
        Instruction::JumpNot(_) => Ok(jump_not(work)),
        Instruction::Show => show(alloc, work),
        Instruction::Write => write(work),
        Instruction::Line => line(work),
        Instruction::End => Ok(end(work)),
        Instruction::Fault(number) => Ok(fault(number)),
    }
}

/// The answer of an operator goes on top.
fn answered(work: &mut Work, answer: Answer) -> Result<Asked, NoMemory>
    ensures { IfOk result
        (λ asked. act_by_result (result_of answer) work.old ≡ act_of asked work.new) }
{
    match answer {
        Answer::Gives(value) => {
            work.push(value)?;
            Ok(Asked::On)
        }
        Answer::Faults(kind) => Ok(Asked::Stops(OwnStop::Fails(kind))),
        Answer::Sticks => Ok(Asked::Stops(OwnStop::Sticks)),
    }
}

fn push_integer(work: &mut Work, number: i32) -> Result<Asked, NoMemory>
    ensures { IfOk result
        (λ asked. AsksAnywhere (Instruction.PushInt number) work.old asked work.new) }
{
    work.push(Value::one(Scalar::Int(number)))?;
    Ok(Asked::On)
}

fn push_truth(work: &mut Work, number: u32) -> Result<Asked, NoMemory>
    ensures { IfOk result
        (λ asked. AsksAnywhere (Instruction.PushBool number) work.old asked work.new) }
{
    match truth_of_operand(number) {
        Some(truth) => {
            work.push(Value::one(Scalar::Bool(truth)))?;
            Ok(Asked::On)
        }
        None => Ok(Asked::Stops(OwnStop::Sticks)),
    }
}

/// The boolean of this number.
fn truth_of_operand(number: u32) -> Option<bool>
    ensures { result ≡ truth_of_operand number }
{
    match number {
        0 => Some(false),
        1 => Some(true),
        _ => None,
    }
}

fn push_text(
    alloc: Global,
    work: &mut Work,
    image: &Image,
    constant: u32,
) -> Result<Asked, NoMemory>
    ensures { IfOk result
        (λ asked. Asks image.now (Instruction.PushText constant) [] [] work.old asked work.new) }
{
    match sqlite_items::at(image.constants.as_slice(), constant as usize) {
        Some(found) => answered(work, text(found.copy(alloc)?)),
        None => Ok(Asked::Stops(OwnStop::Sticks)),
    }
}

fn load(alloc: Global, work: &mut Work, globals: &[Value], slot: u32) -> Result<Asked, NoMemory>
    ensures { IfOk result
        (λ asked. Asks blank (Instruction.LoadGlobal slot) [] (globals.now ∷ [])
        work.old asked work.new) }
{
    match sqlite_items::at(globals, slot as usize) {
        Some(value) => {
            let value = value.copy(alloc)?;
            work.push(value)?;
            Ok(Asked::On)
        }
        None => Ok(Asked::Stops(OwnStop::Sticks)),
    }
}

fn store(work: &mut Work, slot: u32) -> Asked
    ensures { AsksAnywhere (Instruction.StoreGlobal slot) work.old result work.new }
{
    match work.pop() {
        Some(value) => Asked::Puts(Place { frame: 0, slot }, value),
        None => Asked::Stops(OwnStop::Sticks),
    }
}

fn swap(work: &mut Work) -> Result<Asked, NoMemory>
    ensures { IfOk result (λ asked. AsksAnywhere Instruction.Swap work.old asked work.new) }
{
    match work.pop() {
        Some(above) => match work.pop() {
            Some(below) => {
                work.push(above)?;
                work.push(below)?;
                Ok(Asked::On)
            }
            None => Ok(Asked::Stops(OwnStop::Sticks)),
        },
        None => Ok(Asked::Stops(OwnStop::Sticks)),
    }
}

fn add(work: &mut Work) -> Result<Asked, NoMemory>
    ensures { IfOk result (λ asked. AsksAnywhere Instruction.Add work.old asked work.new) }
{
    match work.pop_two() {
        Some((left, right)) => answered(work, sum(left, right)),
        None => Ok(Asked::Stops(OwnStop::Sticks)),
    }
}

fn subtract(work: &mut Work) -> Result<Asked, NoMemory>
    ensures { IfOk result (λ asked. AsksAnywhere Instruction.Subtract work.old asked work.new) }
{
    match work.pop_two() {
        Some((left, right)) => answered(work, difference(left, right)),
        None => Ok(Asked::Stops(OwnStop::Sticks)),
    }
}

fn compare(work: &mut Work, how: Comparison) -> Result<Asked, NoMemory>
    ensures { IfOk result
        (λ asked. AsksAnywhere (Instruction.Compare how) work.old asked work.new) }
{
    match work.pop_two() {
        Some((left, right)) => answered(work, comparison(how, left, right)),
        None => Ok(Asked::Stops(OwnStop::Sticks)),
    }
}

/// Which address it names does not matter here.
fn jump_if(work: &mut Work) -> Asked
    ensures { AsksAnywhere (Instruction.JumpIf 0) work.old result work.new }
{
    match work.pop_truth() {
        Some(true) => Asked::Jumps,
        Some(false) => Asked::On,
        None => Asked::Stops(OwnStop::Sticks),
    }
}

fn jump_not(work: &mut Work) -> Asked
    ensures { AsksAnywhere (Instruction.JumpNot 0) work.old result work.new }
{
    match work.pop_truth() {
        Some(true) => Asked::On,
        Some(false) => Asked::Jumps,
        None => Asked::Stops(OwnStop::Sticks),
    }
}

fn show(alloc: Global, work: &mut Work) -> Result<Asked, NoMemory>
    ensures { IfOk result (λ asked. AsksAnywhere Instruction.Show work.old asked work.new) }
{
    match work.pop() {
        Some(value) => {
            let printed = printed_text(alloc, value)?;
            answered(work, printed)
        }
        None => Ok(Asked::Stops(OwnStop::Sticks)),
    }
}

fn write(work: &mut Work) -> Result<Asked, NoMemory>
    ensures { IfOk result (λ asked. AsksAnywhere Instruction.Write work.old asked work.new) }
{
    match work.pop_text() {
        Some(text) => {
            work.hold(text.as_bytes())?;
            Ok(Asked::On)
        }
        None => Ok(Asked::Stops(OwnStop::Sticks)),
    }
}

fn line(work: &mut Work) -> Result<Asked, NoMemory>
    ensures { IfOk result (λ asked. AsksAnywhere Instruction.Line work.old asked work.new) }
{
    match work.pop_truth() {
        Some(true) => {
            work.hold(b"\n")?;
            Ok(Asked::Prints)
        }
        Some(false) => Ok(Asked::Prints),
        None => Ok(Asked::Stops(OwnStop::Sticks)),
    }
}

fn end(work: &mut Work) -> Asked
    ensures { AsksAnywhere Instruction.End work.old result work.new }
{
    match work.pop_integer() {
        Some(code) => Asked::Stops(OwnStop::Exits(code)),
        None => Asked::Stops(OwnStop::Sticks),
    }
}

fn fault(number: u32) -> Asked
    ensures { (work : Hand) → AsksAnywhere (Instruction.Fault number) work result work }
{
    match own_fault(number) {
        Some(kind) => Asked::Stops(OwnStop::Fails(kind)),
        None => Asked::Stops(OwnStop::Sticks),
    }
}

/// The fault of this number, where a run can make it by itself.
fn own_fault(number: u32) -> Option<FaultKind>
    ensures { result ≡ own_fault number }
{
    match number {
        1 => Some(FaultKind::Overflow),
        2 => Some(FaultKind::DivZero),
        3 => Some(FaultKind::Range),
        4 => Some(FaultKind::Empty),
        5 => Some(FaultKind::TooBig),
        6 => Some(FaultKind::Depth),
        7 => Some(FaultKind::OutFull),
        8 => Some(FaultKind::BadParam),
        9 => Some(FaultKind::EventClass),
        10 => Some(FaultKind::BadName),
        11 => Some(FaultKind::BadData),
        12 => Some(FaultKind::NoLabel),
        _ => None,
    }
}
