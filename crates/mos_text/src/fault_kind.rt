//! The kinds of fault, with their numbers and words.
ghost use Rattle.std.specs.Prelude.{◌≡◌};
ghost use Rattle.mos_text.specs.FaultKinds.{fault_number, fault_word};

/// What a run can fault with. Kinds from `NoFile` on come from a hub's reply alone, the others from
/// the run alone.
#[derive(Clone, Copy, Debug, PartialEq, Drop)]
pub enum FaultKind {
    /// A result of integers outside 32 bits.
    Overflow,
    /// A zero divisor.
    DivZero,
    /// An index, a cell or a label's index that is not there.
    Range,
    /// No element where one is wanted.
    Empty,
    /// A collection, text or block of data above its limit.
    TooBig,
    /// Calls nested too deep.
    Depth,
    /// Output above its limit.
    OutFull,
    /// A parameter text that the model does not take.
    BadParam,
    /// An event class below 2.
    EventClass,
    /// A text that is no name of a file, a block or a pipe.
    BadName,
    /// Data that are outside their grammar or fit no variable.
    BadData,
    /// A label that the data lack.
    NoLabel,
    /// A file or block that is not there.
    NoFile,
    /// No lane is free for a run.
    NoLane,
    /// A queue of events that is full.
    QueueFull,
    /// Too many runs in one job.
    TooManyRuns,
    /// A journal that is full.
    HubFull,
    /// A pipe that has its writer or reader already.
    PipeBusy,
    /// A pipe whose reader is gone.
    Broken,
    /// A file that holds no image.
    NoImage,
    /// A model that is not loaded.
    NotLoaded,
    /// A model that runs already.
    Busy,
}

impl FaultKind {
    /// The kind's number, 1 to 22 in the order of the variants, as an image writes it.
    pub fn number(self) -> u8
        ensures { result ≡ fault_number self }
    {
        match self {
            FaultKind::Overflow => 1,
            FaultKind::DivZero => 2,
            FaultKind::Range => 3,
            FaultKind::Empty => 4,
            FaultKind::TooBig => 5,
            FaultKind::Depth => 6,
            FaultKind::OutFull => 7,
            FaultKind::BadParam => 8,
            FaultKind::EventClass => 9,
            FaultKind::BadName => 10,
            FaultKind::BadData => 11,
            FaultKind::NoLabel => 12,
            FaultKind::NoFile => 13,
            FaultKind::NoLane => 14,
            FaultKind::QueueFull => 15,
            FaultKind::TooManyRuns => 16,
            FaultKind::HubFull => 17,
            FaultKind::PipeBusy => 18,
            FaultKind::Broken => 19,
            FaultKind::NoImage => 20,
            FaultKind::NotLoaded => 21,
            FaultKind::Busy => 22,
        }
    }

    /// The kind's word, as a report prints it: the variant's name in capitals.
    pub fn word(self) -> &'static str
        ensures { result.now ≡ fault_word self }
    {
        match self {
            FaultKind::Overflow => "OVERFLOW",
            FaultKind::DivZero => "DIVZERO",
            FaultKind::Range => "RANGE",
            FaultKind::Empty => "EMPTY",
            FaultKind::TooBig => "TOOBIG",
            FaultKind::Depth => "DEPTH",
            FaultKind::OutFull => "OUTFULL",
            FaultKind::BadParam => "BADPARAM",
            FaultKind::EventClass => "EVENTCLASS",
            FaultKind::BadName => "BADNAME",
            FaultKind::BadData => "BADDATA",
            FaultKind::NoLabel => "NOLABEL",
            FaultKind::NoFile => "NOFILE",
            FaultKind::NoLane => "NOLANE",
            FaultKind::QueueFull => "QUEUEFULL",
            FaultKind::TooManyRuns => "TOOMANYRUNS",
            FaultKind::HubFull => "HUBFULL",
            FaultKind::PipeBusy => "PIPEBUSY",
            FaultKind::Broken => "BROKEN",
            FaultKind::NoImage => "NOIMAGE",
            FaultKind::NotLoaded => "NOTLOADED",
            FaultKind::Busy => "BUSY",
        }
    }
}
