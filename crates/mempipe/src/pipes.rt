//! The pipe of each name.
ghost use Rattle.std.specs.Prelude.{◌≡◌, ℕ, List, [], IfOk, IfSome, OnOk, IsOk, IsSome, length};
ghost use Rattle.mempipe.specs.Bytes.{IsUntaken, IsHere, CanHold};
ghost use Rattle.mempipe.specs.States.{no_ends};
ghost use Rattle.mempipe.specs.Pipes.{ends_at, untaken_at, IsKnown, SayTheSame, CanTell, AreAfter};

use crate::ends::Ends;
use crate::state::State;
use crate::untaken::Untaken;
use crate::words::{piped_name, put_by};
use indexmap::IndexMap;
use job_calls::Entry;
use mos_text::{NoMemory, Text};
use std::alloc::Global;

/// The pipe of each name that is known. Of another name nobody has opened the pipe.
#[derive(Drop)]
pub(crate) struct Pipes {
    pub(crate) pipes: IndexMap<String, State>,
}

impl Pipes {
    /// No name is known.
    pub(crate) fn new(alloc: Global) -> Pipes
        ensures ends { (name : List ℕ) → ends_at name result ≡ no_ends }
        ensures untaken { (name : List ℕ) → IsUntaken (untaken_at name result) [] }
    {
        Pipes {
            pipes: IndexMap::new(alloc),
        }
    }

    /// The ends of the pipe.
    pub(crate) fn ends(&self, name: &Text) -> Ends
        ensures { result ≡ ends_at name.now self.now }
    {
        match self.pipes.get(name.as_str()) {
            Some(state) => state.ends,
            None => Ends::NONE,
        }
    }

    /// How many bytes of the pipe nobody has taken.
    pub(crate) fn untaken(&self, name: &Text) -> u32
        ensures { (bytes : List ℕ) → IsUntaken (untaken_at name.now self.now) bytes
            → result ≡ length bytes }
    {
        match self.pipes.get(name.as_str()) {
            Some(state) => state.untaken.count(),
            None => 0,
        }
    }

    /// The bytes of the pipe that nobody has taken, unless they were let go.
    pub(crate) fn copy(&self, alloc: Global, name: &Text) -> Result<Option<Vec<u8>>, NoMemory>
        ensures bytes { (bytes : List ℕ) → IsUntaken (untaken_at name.now self.now) bytes
            → IfOk result (λ found. IfSome found (λ copy. copy.items ≡ bytes)) }
        ensures here { IsHere (untaken_at name.now self.now)
            → IfOk result (λ found. IsSome found) }
    {
        match self.pipes.get(name.as_str()) {
            Some(state) => state.untaken.copy(alloc),
            None => Ok(Some(Vec::new(alloc))),
        }
    }

    /// Makes the name known.
    fn know(&mut self, alloc: Global, name: &Text) -> Result<(), NoMemory>
        ensures known { OnOk result (IsKnown name.now self.new) }
        ensures same { SayTheSame self.old self.new }
        ensures sure { IsKnown name.now self.old → IsOk result }
    {
        if self.pipes.contains_key(name.as_str()) {
            return Ok(());
        }
        let key = String::from_str(alloc, name.as_str())?;
        self.pipes.insert(
            key,
            State {
                ends: Ends::NONE,
                untaken: Untaken::Counted(0),
            },
        )?;
        Ok(())
    }

    /// Makes room for the bytes of a pipe that is known.
    fn make_room(&mut self, alloc: Global, name: &Text) -> Result<(), NoMemory>
        requires { IsKnown name.now self.old }
        ensures known { IsKnown name.now self.new }
        ensures room { OnOk result (CanHold (untaken_at name.now self.new)) }
        ensures same { SayTheSame self.old self.new }
        ensures sure { CanHold (untaken_at name.now self.old) → IsOk result }
    {
        match self.pipes.get_mut(name.as_str()) {
            Some(state) => state.untaken.make_room(alloc),
            None => Ok(()),
        }
    }

    /// Makes the room that the next `tell` of this entry takes.
    pub(crate) fn ready_for(&mut self, alloc: Global, entry: &Entry) -> Result<(), NoMemory>
        ensures ready { OnOk result (CanTell self.new entry.now) }
        ensures same { SayTheSame self.old self.new }
        ensures sure { CanTell self.old entry.now → IsOk result }
    {
        let Some(name) = piped_name(&entry.call) else {
            return Ok(());
        };
        self.know(alloc, name)?;
        if put_by(name, entry).is_empty() {
            return Ok(());
        }
        self.make_room(alloc, name)
    }

    /// One more entry, which stands at this place.
    pub(crate) fn tell(&mut self, entry: &Entry, place: u32)
        requires { CanTell self.old entry.now }
        ensures { AreAfter self.old self.new entry.now place }
    {
        let Some(name) = piped_name(&entry.call) else {
            return;
        };
        if let Some(state) = self.pipes.get_mut(name.as_str()) {
            state.tell(name, entry, place);
        }
    }
}
