//! The group of images: the rows of instructions (code byte, name, operands, width), and the bytes of the smallest image.

ghost use Rattle.std.specs.Prelude.{◌≡◌, IfOk};
ghost use Rattle.bim_code.specs.Examples.{ends_at_once};

use bim_code::{Comparison, Image, Instruction, Operands};
use bim_format::write_image;
use mos_text::{Blob, NoMemory};
use sqlite_items::Items;
use std::alloc::{AllocError, Global};

/// One of each instruction, some with operands that mean nothing.
const ROWS: [Instruction; 24] = [
    Instruction::Tick,
    Instruction::PushInt(-2),
    Instruction::PushBool(1),
    Instruction::PushBool(7),
    Instruction::PushText(9),
    Instruction::LoadGlobal(258),
    Instruction::StoreGlobal(0),
    Instruction::Swap,
    Instruction::Add,
    Instruction::Subtract,
    Instruction::Show,
    Instruction::Compare(Comparison::Equal),
    Instruction::Compare(Comparison::NotEqual),
    Instruction::Compare(Comparison::Less),
    Instruction::Compare(Comparison::AtMost),
    Instruction::Compare(Comparison::Greater),
    Instruction::Compare(Comparison::AtLeast),
    Instruction::Jump(4294967295),
    Instruction::JumpIf(7),
    Instruction::JumpNot(8),
    Instruction::Write,
    Instruction::Line,
    Instruction::End,
    Instruction::Fault(12),
];

fn row(alloc: Global, instruction: &Instruction) -> Result<String, AllocError> {
    let (code, name, width) = (instruction.code(), instruction.name(), instruction.width());
    match instruction.operands() {
        Operands::None => format!(in alloc; "{code} {name} width {width}"),
        Operands::One(one) => format!(in alloc; "{code} {name} {one} width {width}"),
        Operands::Two(one, two) => format!(in alloc; "{code} {name} {one} {two} width {width}"),
    }
}

/// The row at the place that the word names.
fn row_at(alloc: Global, place: &str) -> Result<String, AllocError> {
    match ROWS.get(place.parse::<u32>().unwrap_or(u32::MAX) as usize) {
        Some(instruction) => row(alloc, instruction),
        None => String::from_str(alloc, "no such row"),
    }
}

/// An image that ends with code 0 at once.
fn smallest(alloc: Global) -> Result<Image, NoMemory>
    ensures { IfOk result (λ image. image ≡ ends_at_once) }
{
    let mut code = Items::new(alloc);
    code.push(Instruction::PushInt(0))?;
    code.push(Instruction::End)?;
    Ok(Image {
        constants: Items::new(alloc),
        types: Items::new(alloc),
        params: Items::new(alloc),
        globals: Items::new(alloc),
        routines: Items::new(alloc),
        points: Items::new(alloc),
        code,
    })
}

/// Its bytes; none where memory is wanting.
fn bytes(alloc: Global) -> Option<Blob> {
    let image = smallest(alloc).ok()?;
    write_image(alloc, &image).ok()
}

fn shown(alloc: Global) -> Result<String, AllocError> {
    match bytes(alloc) {
        Some(blob) => format!(in alloc; "{:?}", blob.as_bytes()),
        None => String::from_str(alloc, "no memory"),
    }
}

/// The answer to a case: the row at a place, or the bytes of the smallest image.
pub fn answer(alloc: Global, case: &str) -> Result<String, AllocError> {
    let (subject, place) = case.split_once(' ').unwrap_or((case, ""));
    match subject {
        "row" => row_at(alloc, place),
        "smallest" => shown(alloc),
        _ => String::from_str(alloc, "no such subject"),
    }
}
