//! How a machine stops, and where an instruction leads it.
use mos_text::FaultKind;

/// How a machine stops.
#[derive(Clone, Copy, Debug)]
pub enum Stop {
    /// The model ended with this code.
    Exited(i32),
    /// A fault of this kind ended it.
    Failed(FaultKind),
    /// A tick was needed and none was left.
    Spent,
    /// An instruction did not find what it wants; no image of an accepted model comes here.
    Stuck,
}

/// Where an instruction leads the machine.
#[derive(Clone, Copy, Debug)]
pub(crate) enum Control {
    /// On behind it.
    Goes,
    /// To the address that it names.
    Jumps,
    /// Nowhere: the run ends.
    Halts(Stop),
}
