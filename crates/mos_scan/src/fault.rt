//! The lexical fault of a source.
use mos_text::{Kind, NoMemory};

/// Why a source has no token list.
#[derive(Debug, Drop)]
pub enum LexFault {
    /// The first fault, with its line and its column in characters, both from 1.
    At { line: u32, column: u32, kind: Kind },
    NoMemory,
}

impl From<NoMemory> for LexFault {
    ghost use Rattle.std.specs.Prelude.{◌≡◌};
    ghost use Rattle.mos_scan.specs.declared.fault.LexFault.TheVariants.{NoMemory as WantsMemory};

    ghost from_gives = { λ _ fault. fault ≡ WantsMemory };

    fn from(_refused: NoMemory) -> LexFault {
        LexFault::NoMemory
    }
}
