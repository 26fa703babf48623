//! What happens to the queue of one run.
ghost use Rattle.std.specs.Prelude.{◌≡◌, ◌≤◌, ◌<◌, ◌+◌, ◌^◌, ◌++◌, ◌∷◌, [], ℕ, List, IfOk, OnOk, IsOk, drop, length};
ghost use Rattle.event_queue.specs.Runs.{IsIdle, HasRoom};
ghost use Rattle.event_queue.specs.Steps.{HasSame, HasOneMore};

use crate::run::Run;
use circular_buffer::HeapCircularBuffer;
use mos_text::NoMemory;
use std::alloc::Global;

impl Run {
    /// A run to which nothing has come so far.
    pub(crate) fn idle(alloc: Global) -> Result<Run, NoMemory>
        ensures { IfOk result (λ run. IsIdle run) }
    {
        Ok(Run {
            parent: None,
            ended: false,
            children: 0,
            places: HeapCircularBuffer::with_capacity(alloc, 0)?,
        })
    }

    /// Makes room for one event beside the ends of children.
    pub(crate) fn make_room(&mut self) -> Result<(), NoMemory>
        requires { length self.old.places.items + self.old.children ≤ self.old.places.capacity }
        ensures room { OnOk result (HasRoom self.new) }
        ensures same { HasSame self.old self.new }
        ensures sure { HasRoom self.old → IsOk result }
    {
        let wanted = self.places.len() + self.children;
        if wanted < self.places.capacity() {
            return Ok(());
        }
        self.places
            .resize(wanted.saturating_mul(2).saturating_add(4))?;
        let room = self.places.capacity();
        prove!(wanted < room);
        Ok(())
    }

    /// The place of one more event.
    pub(crate) fn push(&mut self, place: u32)
        requires { length self.old.places.items < self.old.places.capacity }
        ensures { HasOneMore self.old self.new place }
    {
        self.places.push_back(place);
    }
}
