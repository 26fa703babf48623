//! What an instruction asks of the machine, when it has taken its operands.
use crate::value::Value;
use mos_text::FaultKind;

/// How an instruction can end the run by itself.
#[derive(Clone, Copy, Debug)]
pub(crate) enum OwnStop {
    Exits(i32),
    Fails(FaultKind),
    /// It does not find what it wants.
    Sticks,
}

/// A slot of a frame; frame 0 is the model's.
#[derive(Clone, Copy)]
pub(crate) struct Place {
    pub frame: u32,
    pub slot: u32,
}

/// What an instruction asks for. The operands that it takes and gives are changed already.
#[derive(Drop)]
pub(crate) enum Asked {
    /// To go on behind it.
    On,
    /// To go on at the address that it names.
    Jumps,
    Stops(OwnStop),
    /// To put a value at a place, then to go on.
    Puts(Place, Value),
    /// To write all that is held, then to go on.
    Prints,
    /// To take a tick, then to go on.
    Ticks,
}
