//! A line for each instruction: its address, its name and its operands.
ghost use Rattle.std.specs.Prelude.{◌≡◌, ◌<◌, ◌^◌, ◌++◌, flat_map, map, decimal, IfOk, OnOk};
ghost use Rattle.std.specs.Fmt.{signed_decimal};
ghost use Rattle.bim_code.specs.Code.{code_size};
ghost use Rattle.bim_code.specs.Rows.{row_of};
ghost use Rattle.bim_list.specs.Listing as lists;
ghost use Rattle.bim_list.specs.Listing.{line_of, lines_from, listing, shown_operands, spaced};

use bim_code::{Image, Instruction, Operands};
use itoa::{Buffer, Integer};
use mos_text::{Blob, NoMemory};
use std::alloc::{AllocError, Global};

/// The listing of the image's code: for each instruction its address in decimal, its name, and each
/// operand in decimal, an integer with its sign. The code takes less than 2^32 bytes, as in each
/// image that a file can hold.
#[tactic(auto, unfolding(crate::specs::Listing::listing))]
pub fn list_code(alloc: Global, image: &Image) -> Result<Blob, NoMemory>
    requires { code_size image.now.code < 2 ^ 32 }
    ensures { IfOk result (λ text. text ≡ listing image.now) }
{
    let mut out = Vec::new(alloc);
    put_lines(&mut out, image.code.as_slice())?;
    Ok(Blob::from_vec(out))
}

fn put_lines(out: &mut Vec<u8>, code: &[Instruction]) -> Result<(), AllocError>
    requires { code_size code.now < 2 ^ 32 }
    ensures { OnOk result (out.new.items ≡ out.old.items ++ lines_from 0 code.now) }
{
    let mut at = 0;
    for i in code {
        put_line(out, at, i)?;
        at += i.width();
    }
    Ok(())
}

#[tactic(auto, unfolding(crate::specs::Listing::line_of))]
fn put_line(out: &mut Vec<u8>, at: u32, i: &Instruction) -> Result<(), AllocError>
    ensures { OnOk result (out.new.items ≡ out.old.items ++ line_of at i.now) }
{
    put_number(out, at)?;
    put_spaced(out, i.name().as_bytes())?;
    put_operands(out, i)?;
    Ok(out.push(b'\n')?)
}

fn put_operands(out: &mut Vec<u8>, i: &Instruction) -> Result<(), AllocError>
    ensures { OnOk result (out.new.items ≡ out.old.items ++ flat_map spaced (shown_operands i.now)) }
{
    match integer_of(i) {
        Some(number) => put_spaced_number(out, number),
        None => put_plain_operands(out, i),
    }
}

/// The integer that the instruction puts on the stack, if it puts one.
fn integer_of(i: &Instruction) -> Option<i32>
    ensures { result ≡ lists.integer_of i.now }
{
    match *i {
        Instruction::PushInt(number) => Some(number),
        Instruction::PushBool(_) | Instruction::PushText(_) => None,
        Instruction::LoadGlobal(_) | Instruction::StoreGlobal(_) => None,
        Instruction::Jump(_) | Instruction::JumpIf(_) | Instruction::JumpNot(_) => None,
        Instruction::Fault(_) | Instruction::Compare(_) => None,
        Instruction::Tick | Instruction::Swap | Instruction::Add | Instruction::Subtract => None,
        Instruction::Show | Instruction::Write | Instruction::Line | Instruction::End => None,
    }
}

fn put_plain_operands(out: &mut Vec<u8>, i: &Instruction) -> Result<(), AllocError>
    ensures { OnOk result (out.new.items ≡ out.old.items ++ flat_map spaced (map decimal (row_of i.now).operands)) }
{
    match i.operands() {
        Operands::None => Ok(()),
        Operands::One(operand) => put_spaced_number(out, operand),
        Operands::Two(first, second) => {
            put_spaced_number(out, first)?;
            put_spaced_number(out, second)
        }
    }
}

fn put_number<I: Integer>(out: &mut Vec<u8>, number: I) -> Result<(), AllocError>
    ensures { OnOk result (out.new.items ≡ out.old.items ++ I.text number) }
{
    let mut buffer = Buffer::new();
    out.extend_from_slice(buffer.format(number).as_bytes())
}

fn put_spaced_number<I: Integer>(out: &mut Vec<u8>, number: I) -> Result<(), AllocError>
    ensures { OnOk result (out.new.items ≡ out.old.items ++ spaced (I.text number)) }
{
    out.push(b' ')?;
    put_number(out, number)
}

fn put_spaced(out: &mut Vec<u8>, word: &[u8]) -> Result<(), AllocError>
    ensures { OnOk result (out.new.items ≡ out.old.items ++ spaced word.now) }
{
    out.push(b' ')?;
    out.extend_from_slice(word)
}
