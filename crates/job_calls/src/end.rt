//! How a run ended.
use mos_text::FaultKind;

/// How a run ended.
#[derive(Clone, Copy, Debug)]
pub enum End {
    /// By `exit`, or at the end of its text with code 0.
    Code(i32),
    /// By a fault of its own, or one that a reply brought.
    Fault(FaultKind),
    /// A tick was needed and none was left.
    Spent,
    /// It was asked to stop.
    Stopped,
    /// The machine found no memory.
    NoMemory,
}
