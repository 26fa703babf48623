//! The pipes of all names, as an index of a journal keeps them.
use crate::pipes::Pipes;
use std::alloc::Global;

/// The ends, the session and the untaken bytes of each pipe.
#[derive(Drop)]
pub struct Pipe {
    pub(crate) pipes: Pipes,
    /// Run k at index k: the place at which it last finished. By that it let go of all its ends.
    pub(crate) finishes: Vec<Option<u32>>,
    /// How many entries were noted.
    pub(crate) count: u32,
    pub(crate) alloc: Global,
}
