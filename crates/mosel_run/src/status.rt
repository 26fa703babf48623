//! How the program ends.
ghost use Rattle.std.specs.Prelude.{◌≡◌};
ghost use Rattle.mosel_run.specs.Statuses.{code_of};

use mos_text::{Kind, Text};

/// How the program ends.
#[derive(Debug, Drop)]
pub enum Status {
    /// All was written and put.
    Done,
    /// The words are no command.
    Usage,
    /// The source is not accepted: the line at fault, from 1, and the kind of the fault.
    Refused { line: u32, kind: Kind },
    /// There is no such file.
    Missing { name: Text },
    /// The file is longer than its limit.
    TooLarge { name: Text },
    /// The folder failed at this name; its count of faults rose.
    FolderFault { name: Text },
    /// The sink failed; its count of faults rose.
    SinkFault,
    /// A thread could not be started.
    StartRefused,
    /// Run 0 ended by a fault, or with a code that is not 0.
    MasterFailed,
    /// Run 0 ended for want of ticks.
    MasterSpent,
    /// Some lane is not done, and the call of every such lane is not ready.
    Stalled,
    /// An input is outside its grammar: the byte at fault, from 0, and the rule that it breaks.
    BadInput { name: Text, at: u64, rule: u32 },
    /// Memory was wanting.
    NoMemory,
    /// Some run ended for want of memory.
    RunNoMemory,
}

impl Status {
    /// The number that the program ends with.
    pub fn code(&self) -> u8
        ensures { result ≡ code_of self.now }
    {
        match self {
            Status::Done => 0,
            Status::Usage => 1,
            Status::Refused { .. } => 2,
            Status::Missing { .. } => 3,
            Status::TooLarge { .. } => 4,
            Status::FolderFault { .. } => 5,
            Status::SinkFault => 6,
            Status::StartRefused => 7,
            Status::MasterFailed => 8,
            Status::MasterSpent => 9,
            Status::Stalled => 10,
            Status::BadInput { .. } => 11,
            Status::NoMemory => 12,
            Status::RunNoMemory => 13,
        }
    }
}
