//! Why a source has no tree.
ghost use Rattle.std.specs.Prelude.{◌≡◌};
ghost use Rattle.mos_parse.specs.Steps.{of_tokens};

use mos_scan::LexFault;
use mos_text::NoMemory;
use mos_tree::Refusal;

/// Why a source has no tree.
#[derive(Debug, Drop)]
pub enum SyntaxFault {
    /// The line and the kind of its fault.
    Refused(Refusal),
    NoMemory,
}

impl From<NoMemory> for SyntaxFault {
    ghost use Rattle.std.specs.Prelude.{◌≡◌};
    ghost use Rattle.mos_parse.specs.declared.fault.SyntaxFault.TheVariants.{NoMemory as WantsMemory};

    ghost from_gives = { λ _ fault. fault ≡ WantsMemory };

    fn from(_refused: NoMemory) -> SyntaxFault {
        SyntaxFault::NoMemory
    }
}

/// A fault of tokens as one of the source: its column is left out.
pub(crate) fn of_tokens(fault: LexFault) -> SyntaxFault
    ensures { result ≡ of_tokens fault }
{
    match fault {
        LexFault::At { line, kind, .. } => SyntaxFault::Refused(Refusal { line, kind }),
        LexFault::NoMemory => SyntaxFault::NoMemory,
    }
}
