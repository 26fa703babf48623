//! What was made of a model so far.
ghost use Rattle.std.specs.Prelude.{◌≡◌, ◌++◌, ◌∷◌, [], ◌<◌, ◌+◌, ◌^◌, OnOk, length, map};
ghost use Rattle.bim_code.specs.Code.{code_size};
ghost use Rattle.bim_code.specs.Rows.{width};
ghost use Rattle.bim_compile.specs.Compiled.{at_line};

use bim_code::Instruction;
use mos_text::{NoMemory, Text};
use sqlite_items::Items;
use std::alloc::Global;

/// An instruction with the line of its piece; 0 where it is of none.
#[derive(Clone, Copy, Debug, Drop)]
pub(crate) struct Labelled {
    pub line: u32,
    pub instruction: Instruction,
}

/// The constants and the code so far.
#[derive(Debug, Drop)]
pub(crate) struct Draft {
    pub constants: Items<Text>,
    pub code: Items<Labelled>,
    /// The address behind the code.
    pub at: u32,
}

/// Where `break` and `next` lead.
#[derive(Clone, Copy, Debug, Drop)]
pub(crate) struct JumpTargets {
    pub break_: u32,
    pub next_: u32,
}

impl Draft {
    pub(crate) fn new(alloc: Global) -> Draft
        ensures code { result.code ≡ [] }
        ensures constants { result.constants ≡ [] }
        ensures at { result.at ≡ 0 }
    {
        Draft {
            constants: Items::new(alloc),
            code: Items::new(alloc),
            at: 0,
        }
    }

    /// Puts an instruction of the piece on this line behind the code.
    pub(crate) fn put(&mut self, line: u32, instruction: Instruction) -> Result<(), NoMemory>
        requires { self.old.at + 5 < 2 ^ 32 }
        ensures code { OnOk result (self.new.code ≡ self.old.code
            ++ at_line line instruction ∷ []) }
        ensures constants { OnOk result (self.new.constants ≡ self.old.constants) }
        ensures at { OnOk result (self.new.at ≡ self.old.at + width instruction) }
    {
        let width = instruction.width();
        self.code.push(Labelled { line, instruction })?;
        self.at += width;
        Ok(())
    }

    /// Puts instructions of the piece on this line behind the code, one after the other.
    pub(crate) fn put_all(&mut self, line: u32, all: &[Instruction]) -> Result<(), NoMemory>
        requires { self.old.at + code_size all.now + 5 < 2 ^ 32 }
        ensures code { OnOk result (self.new.code ≡ self.old.code ++ map (at_line line) all.now) }
        ensures constants { OnOk result (self.new.constants ≡ self.old.constants) }
        ensures at { OnOk result (self.new.at ≡ self.old.at + code_size all.now) }
    {
        for instruction in all {
            self.put(line, *instruction)?;
        }
        Ok(())
    }

    /// Puts behind the code the instruction that gives a text, which becomes the last constant.
    pub(crate) fn put_text(&mut self, alloc: Global, line: u32, text: &Text) -> Result<(), NoMemory>
        requires few { length self.old.constants + 1 < 2 ^ 32 }
        requires room { self.old.at + 5 < 2 ^ 32 }
        ensures code { OnOk result (self.new.code ≡ self.old.code
            ++ at_line line (Instruction.PushText (length self.old.constants)) ∷ []) }
        ensures constants { OnOk result (self.new.constants
            ≡ self.old.constants ++ text.now ∷ []) }
        ensures at { OnOk result (self.new.at ≡ self.old.at + 5) }
    {
        let constant = self.constants.len() as u32;
        self.put(line, Instruction::PushText(constant))?;
        self.constants.push(text.copy(alloc)?)?;
        Ok(())
    }
}
