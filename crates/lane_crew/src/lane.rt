//! Lanes: what is run to an end, or told to quit.
use std::sync::Wait;

/// What a thread runs to its end, or lets quit before it began.
pub trait Lane: Send + Drop {
    /// What is left of the lane.
    type End: Send + Drop;

    /// What an end after `run` means, of the lane.
    ghost ran: { Self → Self.End → Type 0 };

    /// What an end after `quit` means, of the lane.
    ghost quitted: { Self → Self.End → Type 0 };

    /// Runs the lane to its end.
    fn run<R: Wait>(self, rt: &R) -> Self::End
        ensures { ran self result };

    /// Ends the lane without running it.
    fn quit<R: Wait>(self, rt: &R) -> Self::End
        ensures { quitted self result };
}
