//! The verdict on one piece.
ghost use Rattle.std.specs.Prelude.{◌≡◌, Ok, Err, IfOk};
ghost use Rattle.mos_types.specs.Faults as spec;

use mos_text::{Kind, NoMemory};
use std::alloc::AllocError;

/// Why a piece has no type.
#[derive(Debug, Drop)]
pub enum TypeFault {
    /// A rule is broken in the piece on this line, and this kind counts.
    At { line: u32, kind: Kind },
    /// Memory was wanting.
    NoMemory,
}

impl From<NoMemory> for TypeFault {
    ghost use Rattle.std.specs.Prelude.{◌≡◌};
    ghost use Rattle.mos_types.specs.declared.fault.TypeFault.TheVariants.{NoMemory};

    ghost from_gives = { λ _ fault. fault ≡ NoMemory };

    fn from(_refused: NoMemory) -> TypeFault {
        TypeFault::NoMemory
    }
}

impl From<AllocError> for TypeFault {
    ghost use Rattle.std.specs.Prelude.{◌≡◌};
    ghost use Rattle.mos_types.specs.declared.fault.TypeFault.TheVariants.{NoMemory};

    ghost from_gives = { λ _ fault. fault ≡ NoMemory };

    fn from(_refused: AllocError) -> TypeFault {
        TypeFault::NoMemory
    }
}

/// The verdict on the piece on this line, by what counts of the rules that it breaks.
pub fn judge(line: u32, worst: Option<Kind>) -> Result<(), TypeFault>
    ensures ok { IfOk result (λ x. spec.judged line worst x ≡ Ok x) }
    ensures fault { spec.IfAt result (λ f. spec.judged line worst (tt {0}) ≡ Err f) }
{
    match worst {
        None => Ok(()),
        Some(kind) => Err(TypeFault::At { line, kind }),
    }
}
