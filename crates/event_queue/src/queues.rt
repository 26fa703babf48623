//! The queues of all runs, as an index of a journal keeps them.
ghost use Rattle.std.specs.Prelude.{◌<◌, length};
ghost use Rattle.event_queue.specs.Runs.{KeepRooms};

use crate::run::Run;
use std::alloc::Global;

/// The queue of each run, as places in the journal, and the run that started it.
#[derive(Drop)]
pub struct EventQueue {
    /// Run k at index k.
    pub(crate) runs: Vec<Run>,
    /// How many entries were noted.
    pub(crate) count: u32,
    pub(crate) alloc: Global,
    ghost rooms: { KeepRooms runs.items },
    ghost first: { 0 < length runs.items },
}
