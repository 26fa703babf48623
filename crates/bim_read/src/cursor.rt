//! Bytes that are read from the front on.
ghost use Rattle.std.specs.Prelude.{◌≡◌, length};
ghost use Rattle.bim_read.specs.Reading.{Finds};
ghost use Rattle.bim_read.specs.Fields as fields;

use crate::fault::{Bad, FaultKind, ReadFault};
use mos_text::{Text, TextFault};
use std::alloc::Global;
use std::marker::Model;

/// The bytes that are still to come. A contract sees the list of them.
#[derive(Drop)]
pub struct Cursor<'a> {
    rest: &'a [u8],
}

impl<'a> Model for Cursor<'a> {
    ghost use Rattle.std.specs.Prelude.{List, ℕ};

    ghost Value = { List ℕ };

    ghost view = { λ c. c.rest.now };
}

/// A fault at a field with so many bytes from its first byte on.
pub fn wrong(left: usize, kind: FaultKind) -> ReadFault
    ensures { result ≡ ReadFault.Wrong (record { left = left; kind = kind }) }
{
    ReadFault::Wrong(Bad { left, kind })
}

/// The bytes end too early.
pub fn ends_early() -> ReadFault
    ensures { result ≡ ReadFault.Wrong (record { left = 0; kind = FaultKind.Short }) }
{
    ReadFault::Wrong(Bad {
        left: 0,
        kind: FaultKind::Short,
    })
}

impl<'a> Cursor<'a> {
    ghost use Rattle.std.specs.Prelude.{length};

    /// A cursor before all of the bytes.
    pub fn new(bytes: &'a [u8]) -> Cursor<'a>
        ensures { result ≡ bytes.now }
    {
        Cursor { rest: bytes }
    }

    /// How many bytes are still to come.
    pub fn left(&self) -> usize
        ensures { result ≡ length self.now }
    {
        self.rest.len()
    }

    /// One byte.
    pub fn byte(&mut self) -> Result<u8, ReadFault>
        ensures { Finds result self.new (fields.byte_at self.old) }
    {
        match self.rest {
            [first, rest @ ..] => {
                let byte = *first;
                self.rest = rest;
                Ok(byte)
            }
            [] => Err(ends_early()),
        }
    }

    /// A number of 16 bits.
    #[tactic(auto, unfolding(crate::specs::Fields::half_at))]
    pub fn half(&mut self) -> Result<u16, ReadFault>
        ensures { Finds result self.new (fields.half_at self.old) }
    {
        if self.rest.len() < 2 {
            return Err(ends_early());
        }
        let (front, rest) = self.rest.split_at(2);
        let number = u16::from_be_bytes([front[0], front[1]]);
        self.rest = rest;
        Ok(number)
    }

    /// A number of 32 bits.
    #[tactic(auto, unfolding(crate::specs::Fields::word_at))]
    pub fn word(&mut self) -> Result<u32, ReadFault>
        ensures { Finds result self.new (fields.word_at self.old) }
    {
        if self.rest.len() < 4 {
            return Err(ends_early());
        }
        let (front, rest) = self.rest.split_at(4);
        let number = u32::from_be_bytes([front[0], front[1], front[2], front[3]]);
        self.rest = rest;
        Ok(number)
    }

    /// An integer of 32 bits.
    pub fn integer(&mut self) -> Result<i32, ReadFault>
        ensures { Finds result self.new (fields.integer_at self.old) }
    {
        let number = self.word()?;
        Ok(number.cast_signed())
    }

    /// A truth.
    pub fn truth(&mut self) -> Result<bool, ReadFault>
        ensures { Finds result self.new (fields.truth_at self.old) }
    {
        let left = self.rest.len();
        match self.byte()? {
            0 => Ok(false),
            1 => Ok(true),
            _ => Err(wrong(left, FaultKind::Tag)),
        }
    }

    /// A count or length of at most this.
    pub fn count(&mut self, most: u32) -> Result<u32, ReadFault>
        ensures { Finds result self.new (fields.count_at most self.old) }
    {
        let left = self.rest.len();
        let number = self.word()?;
        if number <= most {
            Ok(number)
        } else {
            Err(wrong(left, FaultKind::Limit))
        }
    }

    /// So many bytes of text.
    #[tactic(auto, using(crate::proofs::Fronts::text_read, crate::proofs::Fronts::text_wrong))]
    pub fn text_of(&mut self, alloc: Global, many: usize) -> Result<Text, ReadFault>
        ensures { Finds result self.new (fields.text_of many self.old) }
    {
        if self.rest.len() < many {
            return Err(ends_early());
        }
        let (front, rest) = self.rest.split_at(many);
        match Text::new(alloc, front) {
            Ok(text) => {
                self.rest = rest;
                Ok(text)
            }
            Err(TextFault::NotText) => Err(wrong(self.rest.len(), FaultKind::NotText)),
            Err(TextFault::NoMemory) => Err(ReadFault::NoMemory),
        }
    }
}
