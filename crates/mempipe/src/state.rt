//! One pipe, as the index keeps it.
ghost use Rattle.std.specs.Prelude.{◌≡◌, ◌≤◌, ◌<◌, ◌+◌, ℕ, true, List, length, is_some};
ghost use Rattle.job_calls.specs.Pipes as pipes;
ghost use Rattle.mempipe.specs.Bytes.{IsUntaken, IsHere, CanHold};
ghost use Rattle.mempipe.specs.States.{ends_after, bytes_after};

use crate::ends::Ends;
use crate::untaken::Untaken;
use crate::words::{opens, put_by, taken_by};
use job_calls::{Entry, Way};
use mos_text::Text;

/// One pipe: its ends, and the bytes that nobody has taken.
#[derive(Drop)]
pub(crate) struct State {
    pub(crate) ends: Ends,
    pub(crate) untaken: Untaken,
}

impl State {
    /// The pipe of this name after one more entry, which stands at this place.
    pub(crate) fn tell(&mut self, name: &Text, entry: &Entry, place: u32)
        ensures ends { self.new.ends ≡ ends_after name.now place self.old.ends entry.now }
        ensures bytes { (bytes : List ℕ) → IsUntaken self.old.untaken bytes
            → length bytes + length (pipes.put_by name.now entry.now.call entry.now.reply) ≤ 4096
            → IsUntaken self.new.untaken (bytes_after name.now bytes entry.now) }
        ensures here { (is_some self.old.ends.reader ≡ true → IsHere self.old.untaken)
            → (0 < length (pipes.put_by name.now entry.now.call entry.now.reply)
            → CanHold self.old.untaken)
            → is_some self.new.ends.reader ≡ true → IsHere self.new.untaken }
    {
        let before = self.ends;
        self.ends = before.after(name, entry, place);
        if opens(Way::Reads, name, entry) {
            self.untaken = Untaken::Counted(0);
            return;
        }
        self.untaken.put(put_by(name, entry));
        self.untaken.take(taken_by(name, entry).len());
        if before.reader.is_some() && self.ends.reader.is_none() {
            self.untaken.let_go();
        }
    }
}
