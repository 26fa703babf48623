//! Commands, and why words are none.
use mos_text::{NoMemory, Text};

/// What the words ask for.
#[derive(Debug, Drop)]
pub enum Command {
    /// Runs one source.
    Run {
        /// The file name of the source, which ends in `.mos`.
        source: Text,
        /// The number of lanes, 1 to 64.
        lanes: u32,
        /// The ticks that a run may take, 1 to 1,000,000,000.
        budget: u32,
    },
}

/// Why words have given no command.
#[derive(Clone, Copy, Debug, PartialEq, Drop)]
pub enum WordFault {
    /// The words are no command.
    Usage,
    NoMemory,
}

impl From<NoMemory> for WordFault {
    ghost use Rattle.std.specs.Prelude.{◌≡◌};
    ghost use Rattle.mos_words.specs.declared.command_line.commands.WordFault.TheVariants.{NoMemory};

    ghost from_gives = { λ _ fault. fault ≡ NoMemory };

    fn from(_refused: NoMemory) -> WordFault {
        WordFault::NoMemory
    }
}
