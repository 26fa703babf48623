//! A run, as far as events concern it.
ghost use Rattle.std.specs.Prelude.{◌≡◌, ◌≤◌, ◌<◌, ◌+◌, ◌^◌, ◌++◌, ◌∷◌, [], ℕ, List, IfOk, OnOk, IsOk, drop, length};
ghost use Rattle.event_queue.specs.Runs.{IsIdle, HasRoom};
ghost use Rattle.event_queue.specs.Steps.{HasSame};

use circular_buffer::HeapCircularBuffer;
use mos_text::NoMemory;
use std::alloc::Global;

/// A run: who started it, and the events that came to it.
#[derive(Drop)]
pub(crate) struct Run {
    /// The run that started it.
    pub(crate) parent: Option<u32>,
    /// It has ended.
    pub(crate) ended: bool,
    /// How many of the runs that it started go on: its queue has a place for the end of each.
    pub(crate) children: usize,
    /// The places of the events that it has not taken, in order.
    pub(crate) places: HeapCircularBuffer<u32>,
}
