//! The bytes of a pipe that nobody has taken.
ghost use Rattle.std.specs.Prelude.{◌≡◌, ◌≤◌, ◌<◌, ◌+◌, ◌++◌, ℕ, List, Some, IfOk, IfSome, OnOk, IsOk, IsSome, drop, length};
ghost use Rattle.mempipe.specs.Bytes.{IsUntaken, IsHere, CanHold};

use circular_buffer::HeapCircularBuffer;
use mos_text::NoMemory;
use std::alloc::Global;

/// The bytes of a pipe that nobody has taken.
#[derive(Drop)]
pub(crate) enum Untaken {
    /// The bytes, in a ring for 4,096 of them.
    Held(HeapCircularBuffer<u8>),
    /// How many there are: none was put so far, or the reader closed the pipe and they were let go.
    Counted(u32),
}

/// The most bytes that a pipe holds.
const CAPACITY: usize = 4096;

impl Untaken {
    /// How many there are.
    pub(crate) fn count(&self) -> u32
        ensures { (bytes : List ℕ) → IsUntaken self.now bytes → result ≡ length bytes }
    {
        match self {
            Untaken::Held(ring) => ring.len().min(CAPACITY) as u32,
            Untaken::Counted(count) => *count,
        }
    }

    /// The bytes, unless they were let go.
    pub(crate) fn copy(&self, alloc: Global) -> Result<Option<Vec<u8>>, NoMemory>
        ensures bytes { (bytes : List ℕ) → IsUntaken self.now bytes
            → IfOk result (λ found. IfSome found (λ copy. copy.items ≡ bytes)) }
        ensures here { IsHere self.now → IfOk result (λ found. IsSome found) }
    {
        match self {
            Untaken::Held(ring) => Ok(Some(ring.to_vec(alloc)?)),
            Untaken::Counted(0) => Ok(Some(Vec::new(alloc))),
            Untaken::Counted(_) => Ok(None),
        }
    }

    /// Makes room for all that the pipe may hold, unless bytes were let go.
    pub(crate) fn make_room(&mut self, alloc: Global) -> Result<(), NoMemory>
        ensures room { OnOk result (CanHold self.new) }
        ensures same { (bytes : List ℕ) → IsUntaken self.old bytes → IsUntaken self.new bytes }
        ensures here { IsHere self.old → IsHere self.new }
        ensures sure { CanHold self.old → IsOk result }
        ensures kept { CanHold self.old → CanHold self.new }
    {
        if let Untaken::Counted(0) = self {
            *self = Untaken::Held(HeapCircularBuffer::with_capacity(alloc, CAPACITY)?);
        }
        Ok(())
    }

    /// More bytes were put.
    pub(crate) fn put(&mut self, more: &[u8])
        ensures bytes { (bytes : List ℕ) → IsUntaken self.old bytes
            → length bytes + length more.now ≤ 4096 → IsUntaken self.new (bytes ++ more.now) }
        ensures here { IsHere self.old → (0 < length more.now → CanHold self.old)
            → IsHere self.new }
    {
        match self {
            Untaken::Held(ring) => {
                ring.fill_from_slice(more);
            }
            Untaken::Counted(count) => {
                *count = count.saturating_add(more.len().min(CAPACITY) as u32);
            }
        }
    }

    /// The first bytes were taken, so many.
    pub(crate) fn take(&mut self, many: usize)
        ensures bytes { (bytes : List ℕ) → IsUntaken self.old bytes
            → IsUntaken self.new (drop many bytes) }
        ensures here { IsHere self.old → IsHere self.new }
    {
        match self {
            Untaken::Held(ring) => ring.truncate_front(ring.len().saturating_sub(many)),
            Untaken::Counted(count) => {
                *count = (*count as usize).saturating_sub(many) as u32;
            }
        }
    }

    /// The bytes are let go, and counted.
    pub(crate) fn let_go(&mut self)
        ensures { (bytes : List ℕ) → IsUntaken self.old bytes → IsUntaken self.new bytes }
    {
        *self = Untaken::Counted(self.count());
    }
}
