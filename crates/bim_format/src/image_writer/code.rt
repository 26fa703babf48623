//! The code's part of the file.
ghost use Rattle.std.specs.Prelude.{◌≡◌, ◌<◌, ◌^◌, ◌++◌, OnOk};
ghost use Rattle.bim_code.specs.Code.{code_bytes, code_size};

use super::encode::{Encode, put_all};
use super::numbers::put_u32;
use bim_code::{Instruction, Operands};
use std::alloc::AllocError;

impl Encode for Instruction {
    ghost use Rattle.bim_code.specs.Code.{instruction_bytes};

    ghost encoding = { instruction_bytes };

    ghost InField = { λ _. Unit {0} };

    fn write(&self, out: &mut Vec<u8>) -> Result<(), AllocError> {
        out.push(self.code())?;
        match self.operands() {
            Operands::None => Ok(()),
            Operands::One(operand) => put_u32(out, operand),
            Operands::Two(first, second) => {
                put_u32(out, first)?;
                put_u32(out, second)
            }
        }
    }
}

/// The number of bytes of the code, then each instruction.
#[tactic(auto, unfolding(bim_code::specs::Code::code_bytes))]
pub fn put_code(out: &mut Vec<u8>, code: &[Instruction]) -> Result<(), AllocError>
    requires { code_size code.now < 2 ^ 32 }
    ensures { OnOk result (out.new.items ≡ out.old.items ++ code_bytes code.now) }
{
    put_u32(out, size_of(code))?;
    put_all(out, code)
}

/// How many bytes the code takes.
fn size_of(code: &[Instruction]) -> u32
    requires { code_size code.now < 2 ^ 32 }
    ensures { result ≡ code_size code.now }
{
    let mut size = 0;
    for instruction in code {
        size += instruction.width();
    }
    size
}
