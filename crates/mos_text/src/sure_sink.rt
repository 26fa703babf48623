//! A sink in memory that never fails.
ghost use Rattle.std.specs.Prelude.{◌≡◌, [], Some};

use crate::{Sink, Wrote};
use std::alloc::Global;
use std::marker::Model;

/// A sink in memory that never fails. A contract sees the bytes so far.
#[derive(Debug, Drop)]
pub struct SureSink {
    written: Vec<u8>,
}

impl Model for SureSink {
    ghost use Rattle.std.specs.Prelude.{List, ℕ};

    ghost Value = { List ℕ };

    ghost view = { λ s. s.written.items };
}

impl SureSink {
    /// A sink that has nothing yet.
    pub fn new(alloc: Global) -> SureSink
        ensures { result ≡ [] }
    {
        SureSink {
            written: Vec::new(alloc),
        }
    }

    /// What was written so far.
    pub fn bytes(&self) -> &[u8]
        ensures { result.now ≡ self.now }
    {
        self.written.as_slice()
    }
}

impl Sink for SureSink {
    ghost bytes = { λ s. Some s };

    ghost faults = { λ _. 0 };

    fn write(&mut self, piece: &[u8]) -> Wrote {
        match self.written.extend_from_slice(piece) {
            Ok(()) => Wrote::Took(piece.len()),
            Err(_) => Wrote::NoMemory,
        }
    }
}
