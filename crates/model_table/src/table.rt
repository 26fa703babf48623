//! The table of models and runs, as an index of a journal keeps it.
ghost use Rattle.std.specs.Prelude.{◌<◌, ◌≤◌, length};

use crate::lane::Lane;
use crate::model::Model;
use crate::run::Run;
use shmem_block::Places;
use std::alloc::Global;

/// The models, runs and lanes of a journal, each at its number, and the place of the last image of each name.
#[derive(Drop)]
pub struct ModelTable {
    pub(crate) models: Vec<Model>,
    pub(crate) runs: Vec<Run>,
    pub(crate) lanes: Vec<Lane>,
    pub(crate) images: Places,
    /// How many entries were noted, models loaded, runs started and runs given to lanes.
    pub(crate) count: u32,
    pub(crate) loads: u32,
    pub(crate) started: u32,
    pub(crate) claimed: u32,
    /// How many runs are live.
    pub(crate) live: usize,
    /// The job was ended before its time.
    pub(crate) quit: bool,
    pub(crate) alloc: Global,
    ghost places: { started < length runs.items },
    ghost seats: { 64 ≤ length lanes.items },
}
