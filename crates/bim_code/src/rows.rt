//! The table of instructions in code: the code byte, the printed name and the operands of each.
ghost use Rattle.std.specs.Prelude.{◌≡◌};
ghost use Rattle.bim_code.specs.Rows.{row_of, width, code_of_comparison, name_of_comparison, operand_list};

use crate::instruction::{Comparison, Instruction};
use crate::operands::Operands;

/// The code and the name of each instruction, those without an operand first.
macro_rules! with_rows {
    ($what:ident, $x:expr) => {
        $what!(
            $x;
            0x01 "Tick" => Tick, 0x12 "Swap" => Swap, 0x13 "Add" => Add, 0x14 "Sub" => Subtract,
            0x1A "Show" => Show, 0x43 "Write" => Write, 0x44 "Line" => Line, 0x45 "End" => End;
            0x03 "PushInt" => PushInt, 0x04 "PushBool" => PushBool, 0x05 "PushStr" => PushText,
            0x08 "LoadG" => LoadGlobal, 0x09 "StoreG" => StoreGlobal, 0x22 "Jump" => Jump,
            0x23 "JumpIf" => JumpIf, 0x24 "JumpNot" => JumpNot, 0x46 "Fault" => Fault
        )
    };
}

macro_rules! code_in {
    (
        $x:expr;
        $($alone:literal $alone_name:literal => $name:ident),*;
        $($code:literal $code_name:literal => $with:ident),*
    ) => {
        match $x {
            $(Instruction::$name => $alone,)*
            $(Instruction::$with(_) => $code,)*
            Instruction::Compare(comparison) => code_of_comparison(comparison),
        }
    };
}

macro_rules! name_in {
    (
        $x:expr;
        $($alone:literal $alone_name:literal => $name:ident),*;
        $($code:literal $code_name:literal => $with:ident),*
    ) => {
        match $x {
            $(Instruction::$name => $alone_name,)*
            $(Instruction::$with(_) => $code_name,)*
            Instruction::Compare(comparison) => name_of_comparison(comparison),
        }
    };
}

impl Instruction {
    /// The byte that stands first in the instruction's bytes.
    pub fn code(&self) -> u8
        ensures { result ≡ (row_of self.now).code }
    {
        with_rows!(code_in, *self)
    }

    /// The name by which the instruction is printed.
    pub fn name(&self) -> &'static str
        ensures { result.now ≡ (row_of self.now).name }
    {
        with_rows!(name_in, *self)
    }

    /// The operands, as the numbers that the file has: an integer is in two's complement.
    pub fn operands(&self) -> Operands
        ensures { operand_list result ≡ (row_of self.now).operands }
    {
        match *self {
            Instruction::PushInt(number) => Operands::One(number.cast_unsigned()),
            Instruction::PushBool(number)
            | Instruction::PushText(number)
            | Instruction::LoadGlobal(number)
            | Instruction::StoreGlobal(number) => Operands::One(number),
            Instruction::Jump(number)
            | Instruction::JumpIf(number)
            | Instruction::JumpNot(number)
            | Instruction::Fault(number) => Operands::One(number),
            Instruction::Tick | Instruction::Swap | Instruction::Compare(_) => Operands::None,
            Instruction::Add | Instruction::Subtract | Instruction::Show => Operands::None,
            Instruction::Write | Instruction::Line | Instruction::End => Operands::None,
        }
    }

    /// How many bytes the instruction takes: 1, and 4 for each operand.
    pub fn width(&self) -> u32
        ensures { result ≡ width self.now }
    {
        match self.operands() {
            Operands::None => 1,
            Operands::One(_) => 5,
            Operands::Two(_, _) => 9,
        }
    }
}

fn code_of_comparison(comparison: Comparison) -> u8
    ensures { result ≡ code_of_comparison comparison }
{
    match comparison {
        Comparison::Equal => 0x1B,
        Comparison::NotEqual => 0x1C,
        Comparison::Less => 0x1D,
        Comparison::AtMost => 0x1E,
        Comparison::Greater => 0x1F,
        Comparison::AtLeast => 0x20,
    }
}

fn name_of_comparison(comparison: Comparison) -> &'static str
    ensures { result.now ≡ name_of_comparison comparison }
{
    match comparison {
        Comparison::Equal => "Eq",
        Comparison::NotEqual => "Ne",
        Comparison::Less => "Lt",
        Comparison::AtMost => "Le",
        Comparison::Greater => "Gt",
        Comparison::AtLeast => "Ge",
    }
}
