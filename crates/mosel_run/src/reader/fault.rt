//! Why a source has given no tree.
use mos_check::CheckFault;
use mos_parse::SyntaxFault;
use mos_text::NoMemory;
use mos_tree::Refusal;

/// Why a source has given no tree.
#[derive(Debug, Drop)]
pub enum ReadFault {
    /// The line that is at fault, and what is wrong with it.
    Refused(Refusal),
    NoMemory,
}

impl From<NoMemory> for ReadFault {
    ghost use Rattle.std.specs.Prelude.{◌≡◌};
    ghost use Rattle.mosel_run.specs.declared.reader.fault.ReadFault.TheVariants.{NoMemory};

    ghost from_gives = { λ _ fault. fault ≡ NoMemory };

    fn from(_refused: NoMemory) -> ReadFault {
        ReadFault::NoMemory
    }
}

impl From<SyntaxFault> for ReadFault {
    ghost use Rattle.std.specs.Prelude.{◌≡◌};
    ghost use Rattle.mosel_run.specs.ReadAnswers.{of_syntax};

    ghost from_gives = { λ found fault. fault ≡ of_syntax found };

    fn from(found: SyntaxFault) -> ReadFault {
        match found {
            SyntaxFault::Refused(refusal) => ReadFault::Refused(refusal),
            SyntaxFault::NoMemory => ReadFault::NoMemory,
        }
    }
}

impl From<CheckFault> for ReadFault {
    ghost use Rattle.std.specs.Prelude.{◌≡◌};
    ghost use Rattle.mosel_run.specs.ReadAnswers.{of_check};

    ghost from_gives = { λ found fault. fault ≡ of_check found };

    fn from(found: CheckFault) -> ReadFault {
        match found {
            CheckFault::Refused(refusal) => ReadFault::Refused(refusal),
            CheckFault::NoMemory => ReadFault::NoMemory,
        }
    }
}
