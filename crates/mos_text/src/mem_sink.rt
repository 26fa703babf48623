//! A sink in memory that takes short pieces, and fails at writes which are listed beforehand.
ghost use Rattle.std.specs.Prelude.{◌≡◌, ◌≢◌, ◌↔◌, ◌<◌, ◌≤◌, [], ◌++◌, Some, length};
ghost use Rattle.mos_text.specs.Calls.{FailsNext, after_one, calls_of, one_more};
ghost use Rattle.mos_text.specs.SinkBytes.{TakesSome, taken_part};

use crate::failing_calls::FailingCalls;
use crate::{Sink, Wrote};
use std::alloc::Global;
use std::marker::Model;

/// A sink in memory that takes a limited number of bytes at each write, and fails by list. Writes
/// are numbered from 1.
#[derive(Debug, Drop)]
pub struct MemSink {
    written: Vec<u8>,
    piece: u32,
    writes: FailingCalls,
    faults: u64,
}

impl Model for MemSink {
    ghost use Rattle.std.specs.Prelude.{◌<◌};
    ghost use Rattle.mos_text.specs.Memory.{MemoryBytes, memory_bytes_code};

    ghost Value = { MemoryBytes };

    ghost coded = { memory_bytes_code };

    ghost view = { λ s. record {
      bytes = s.written.items;
      piece = s.piece;
      writes = s.writes;
      faults = s.faults;
    } };

    ghost invariant = { λ s. 0 < s.piece };
}

impl MemSink {
    /// A sink that takes at most `piece` bytes at each write, and of which the writes of these
    /// numbers fail.
    pub fn new(alloc: Global, piece: u32, failing: Vec<u32>) -> MemSink
        requires { 0 < piece }
        ensures bytes { result.bytes ≡ [] }
        ensures piece { result.piece ≡ piece }
        ensures writes { result.writes ≡ calls_of failing.items }
        ensures faults { result.faults ≡ 0 }
    {
        MemSink {
            written: Vec::new(alloc),
            piece,
            writes: FailingCalls::new(failing),
            faults: 0,
        }
    }

    /// What was written so far.
    pub fn bytes(&self) -> &[u8]
        ensures { result.now ≡ self.now.bytes }
    {
        self.written.as_slice()
    }

    /// How often the sink has failed.
    pub fn faults(&self) -> u64
        ensures { result ≡ self.now.faults }
    {
        self.faults
    }
}

impl Sink for MemSink {
    ghost bytes = { λ s. Some s.bytes };

    ghost faults = { λ s. s.faults };

    fn write(&mut self, piece: &[u8]) -> Wrote
        ensures some { TakesSome result piece.now }
        ensures most { length (taken_part result piece.now) ≤ self.old.piece }
        ensures bytes { self.new.bytes ≡ self.old.bytes ++ taken_part result piece.now }
        ensures piece { self.new.piece ≡ self.old.piece }
        ensures listed { (result ≡ Wrote.Failed) ↔ FailsNext self.old.writes }
        ensures counted { self.new.writes ≡ after_one self.old.writes }
        ensures later { self.old.faults ≤ self.new.faults }
        ensures faults { result ≢ Wrote.Failed → self.new.faults ≡ self.old.faults }
        ensures failed { result ≡ Wrote.Failed → self.new.faults ≡ one_more self.old.faults }
    {
        if self.writes.next_fails() {
            self.faults = self.faults.saturating_add(1);
            return Wrote::Failed;
        }
        let count = piece.len().min(self.piece as usize);
        match self.written.extend_from_slice(&piece[..count]) {
            Ok(()) => Wrote::Took(count),
            Err(_) => Wrote::NoMemory,
        }
    }
}
