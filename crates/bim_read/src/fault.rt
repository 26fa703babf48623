//! What is wrong with bytes that are no image.
ghost use Rattle.std.specs.Prelude.{◌≡◌};
ghost use Rattle.bim_read.specs.Images.{kind_number};
ghost use Rattle.bim_read.specs.declared.fault.ReadFault.TheVariants.{NoMemory};

use std::alloc::{AllocError, AllocFailed};

/// The kinds of fault, in the order of their numbers.
#[derive(Clone, Copy, PartialEq, Debug, Drop)]
pub enum FaultKind {
    /// The first four bytes are not the format's letters.
    Letters,
    /// The version is another one.
    Version,
    /// The bytes end too early.
    Short,
    /// A tag, a flag or a number of indexes that means nothing.
    Tag,
    /// A constant that is no UTF-8.
    NotText,
    /// A count or length above its limit, or an instruction that crosses the code's length.
    Limit,
    /// A byte that is no code of an instruction.
    Unknown,
    /// Bytes behind the end.
    Behind,
}

impl FaultKind {
    /// 1 to 8.
    pub fn number(self) -> u32
        ensures { result ≡ kind_number self }
    {
        match self {
            FaultKind::Letters => 1,
            FaultKind::Version => 2,
            FaultKind::Short => 3,
            FaultKind::Tag => 4,
            FaultKind::NotText => 5,
            FaultKind::Limit => 6,
            FaultKind::Unknown => 7,
            FaultKind::Behind => 8,
        }
    }
}

/// The first wrong field: how many bytes there are from its first byte on, and what is wrong.
#[derive(Clone, Copy, PartialEq, Debug, Drop)]
pub struct Bad {
    pub left: usize,
    pub kind: FaultKind,
}

/// Why nothing is read.
#[derive(Clone, Copy, PartialEq, Debug, Drop)]
pub enum ReadFault {
    Wrong(Bad),
    NoMemory,
}

impl From<AllocError> for ReadFault {
    ghost from_gives = { λ _ fault. fault ≡ NoMemory };

    fn from(_refused: AllocError) -> ReadFault {
        ReadFault::NoMemory
    }
}

impl<T: Drop> From<AllocFailed<T>> for ReadFault {
    ghost from_gives = { λ _ fault. fault ≡ NoMemory };

    fn from(_refused: AllocFailed<T>) -> ReadFault {
        ReadFault::NoMemory
    }
}
