//! Images by words. `k:TEXT` is a constant; `t:TAG,..` a type by the file's tag, `t:7,MEMBER`, `t:9,DYNAMIC,CELL,INDEX,..` and
//! `t:10,NAME,TYPE,..` with their parts; `p:NAME,SLOT,TAG,VALUE` a parameter, `g:TYPE` a global,
//! `r:ADDRESS,ARGUMENTS,RESULT,TYPE,REFERENCE,..` a routine, `q:ADDRESS,TYPE,FORM,..` a point. Any other word is an instruction
//! by its printed name, with its operand: `PushInt,3`; `40001*Tick` is as many of them. A number that is missing is 0.
use bim_code::{
    Comparison, Default, Field, Form, Image, ImageType, Instruction, Operand, Parameter, Point,
    Routine, Slot,
};
use mos_text::{NoMemory, Text};
use sqlite_items::Items;
use std::alloc::Global;

/// The image that a line spells.
pub fn image_of(alloc: Global, line: &str) -> Result<Image, NoMemory> {
    let mut image = Image {
        constants: Items::new(alloc),
        types: Items::new(alloc),
        params: Items::new(alloc),
        globals: Items::new(alloc),
        routines: Items::new(alloc),
        points: Items::new(alloc),
        code: Items::new(alloc),
    };
    for word in line.split(' ') {
        add(alloc, &mut image, word)?;
    }
    Ok(image)
}

fn add(alloc: Global, image: &mut Image, word: &str) -> Result<(), NoMemory> {
    match word.split_once(':') {
        Some(("k", text)) => {
            let text = Text::from_string(String::from_str(alloc, text)?);
            image.constants.push(text)?;
        }
        Some((table, rest)) => {
            let numbers = numbers_of(alloc, rest)?;
            add_entry(alloc, image, table, numbers.as_slice())?;
        }
        None => add_code(image, word)?,
    }
    Ok(())
}

fn numbers_of(alloc: Global, rest: &str) -> Result<Vec<u32>, NoMemory> {
    let mut numbers = Vec::new(alloc);
    for part in rest.split(',') {
        numbers.push(part.parse::<u32>().unwrap_or(0))?;
    }
    Ok(numbers)
}

/// The number at a place.
fn nth(numbers: &[u32], place: usize) -> u32 {
    match numbers.get(place) {
        Some(number) => *number,
        None => 0,
    }
}

/// The same where 16 bits hold it.
fn short(numbers: &[u32], place: usize) -> u16 {
    u16::try_from(nth(numbers, place)).unwrap_or(u16::MAX)
}

fn add_entry(
    alloc: Global,
    image: &mut Image,
    table: &str,
    numbers: &[u32],
) -> Result<(), NoMemory> {
    match table {
        "t" => image.types.push(type_of(alloc, numbers)?)?,
        "p" => image.params.push(parameter_of(numbers))?,
        "g" => image.globals.push(short(numbers, 0))?,
        "r" => image.routines.push(routine_of(alloc, numbers)?)?,
        _ => image.points.push(point_of(alloc, numbers)?)?,
    }
    Ok(())
}

fn type_of(alloc: Global, numbers: &[u32]) -> Result<ImageType, NoMemory> {
    match nth(numbers, 0) {
        1 => Ok(ImageType::Integer),
        2 => Ok(ImageType::Boolean),
        3 => Ok(ImageType::Str),
        4 => Ok(ImageType::Model),
        5 => Ok(ImageType::Event),
        6 => Ok(ImageType::Range),
        7 => Ok(ImageType::Set(short(numbers, 1))),
        8 => Ok(ImageType::List(short(numbers, 1))),
        9 => array_of(alloc, numbers),
        _ => record_of(alloc, numbers),
    }
}

fn array_of(alloc: Global, numbers: &[u32]) -> Result<ImageType, NoMemory> {
    let mut indexes = Items::new(alloc);
    for place in 3..numbers.len() {
        indexes.push(short(numbers, place))?;
    }
    Ok(ImageType::Array {
        dynamic: nth(numbers, 1) == 1,
        indexes,
        cell: short(numbers, 2),
    })
}

fn record_of(alloc: Global, numbers: &[u32]) -> Result<ImageType, NoMemory> {
    let mut fields = Items::new(alloc);
    for pair in 0..numbers.len() / 2 {
        fields.push(Field {
            name: nth(numbers, 2 * pair + 1),
            typ: short(numbers, 2 * pair + 2),
        })?;
    }
    Ok(ImageType::Record(fields))
}

fn parameter_of(numbers: &[u32]) -> Parameter {
    let value = nth(numbers, 3);
    Parameter {
        name: nth(numbers, 0),
        slot: nth(numbers, 1),
        default: match nth(numbers, 2) {
            1 => Default::Number(i32::try_from(value).unwrap_or(0)),
            2 => Default::Truth(value == 1),
            _ => Default::Constant(value),
        },
    }
}

fn routine_of(alloc: Global, numbers: &[u32]) -> Result<Routine, NoMemory> {
    let mut slots = Items::new(alloc);
    for place in 3..numbers.len() {
        if place % 2 == 1 {
            slots.push(Slot {
                typ: short(numbers, place),
                by_reference: nth(numbers, place + 1) == 1,
            })?;
        }
    }
    Ok(Routine {
        address: nth(numbers, 0),
        arguments: short(numbers, 1),
        slots,
        result: match short(numbers, 2) {
            65535 => None,
            typ => Some(typ),
        },
    })
}

fn point_of(alloc: Global, numbers: &[u32]) -> Result<Point, NoMemory> {
    let mut stack = Items::new(alloc);
    for place in 1..numbers.len() {
        if place % 2 == 1 {
            stack.push(Operand {
                typ: short(numbers, place),
                form: match nth(numbers, place + 1) {
                    0 => Form::Value,
                    1 => Form::Place,
                    _ => Form::Walk,
                },
            })?;
        }
    }
    Ok(Point {
        address: nth(numbers, 0),
        stack,
    })
}

fn add_code(image: &mut Image, word: &str) -> Result<(), NoMemory> {
    let (times, rest) = word.split_once('*').unwrap_or(("1", word));
    let (name, operand) = rest.split_once(',').unwrap_or((rest, "0"));
    if let Some(instruction) = instruction_of(name, operand) {
        for _time in 0..times.parse::<u32>().unwrap_or(0) {
            image.code.push(instruction)?;
        }
    }
    Ok(())
}

fn instruction_of(name: &str, operand: &str) -> Option<Instruction> {
    let number = operand.parse::<u32>().unwrap_or(0);
    match name {
        "PushInt" => Some(Instruction::PushInt(operand.parse::<i32>().unwrap_or(0))),
        "PushBool" => Some(Instruction::PushBool(number)),
        "PushStr" => Some(Instruction::PushText(number)),
        "LoadG" => Some(Instruction::LoadGlobal(number)),
        "StoreG" => Some(Instruction::StoreGlobal(number)),
        "Jump" => Some(Instruction::Jump(number)),
        "JumpIf" => Some(Instruction::JumpIf(number)),
        "JumpNot" => Some(Instruction::JumpNot(number)),
        "Fault" => Some(Instruction::Fault(number)),
        _ => plain_of(name),
    }
}

/// An instruction without an operand.
fn plain_of(name: &str) -> Option<Instruction> {
    match name {
        "Tick" => Some(Instruction::Tick),
        "Swap" => Some(Instruction::Swap),
        "Add" => Some(Instruction::Add),
        "Sub" => Some(Instruction::Subtract),
        "Show" => Some(Instruction::Show),
        "Write" => Some(Instruction::Write),
        "Line" => Some(Instruction::Line),
        "End" => Some(Instruction::End),
        "Eq" => Some(Instruction::Compare(Comparison::Equal)),
        "Ne" => Some(Instruction::Compare(Comparison::NotEqual)),
        "Lt" => Some(Instruction::Compare(Comparison::Less)),
        "Le" => Some(Instruction::Compare(Comparison::AtMost)),
        "Gt" => Some(Instruction::Compare(Comparison::Greater)),
        "Ge" => Some(Instruction::Compare(Comparison::AtLeast)),
        _ => None,
    }
}
