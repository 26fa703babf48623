//! Why pieces have no tree.
use mos_text::{Kind, NoMemory};

/// Why pieces have no tree.
#[derive(Debug, Drop)]
pub enum PieceFault {
    /// The line of the faulty piece; none where the pieces end too early.
    At { line: Option<u32>, kind: Kind },
    NoMemory,
}

impl From<NoMemory> for PieceFault {
    ghost use Rattle.std.specs.Prelude.{◌≡◌};
    ghost use Rattle.mos_source.specs.declared.fault.PieceFault.TheVariants.{NoMemory as WantsMemory};

    ghost from_gives = { λ _ fault. fault ≡ WantsMemory };

    fn from(_refused: NoMemory) -> PieceFault {
        PieceFault::NoMemory
    }
}
