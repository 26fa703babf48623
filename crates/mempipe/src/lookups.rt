//! What the index is asked.
ghost use Rattle.std.specs.Prelude.{◌≡◌, true, List, IfOk, IfSome, IsSome, is_some, length, option_map};
ghost use Rattle.job_calls.specs.declared.entry.Entry.{Entry};
ghost use Rattle.job_calls.specs.declared.call.Way.TheVariants.{Reads};
ghost use Rattle.job_calls.specs.Fitting as fitting;
ghost use Rattle.job_calls.specs.Pipes as words;
ghost use Rattle.mempipe.specs.Index as index;
ghost use Rattle.mempipe.specs.Index.{IsIndexOf};

use crate::ends::is_session;
use crate::finishes::is_run;
use crate::hold::Hold;
use crate::pipe::Pipe;
use growing_lists::at;
use job_calls::Way;
use mos_text::{NoMemory, Place, Text};
use std::alloc::Global;

impl Pipe {
    /// How many bytes of the pipe's last session nobody has taken; 0 where it has had none.
    pub fn untaken(&self, name: &Text) -> u32
        ensures { (journal : List Entry) → IsIndexOf self.now journal
            → result ≡ length (words.untaken_bytes name.now journal) }
    {
        self.pipes.untaken(name)
    }

    /// A copy of the bytes of the pipe's last session that nobody has taken. None where they were let
    /// go, since nobody can take them any more: the reader has closed the pipe.
    pub fn untaken_bytes(&self, alloc: Global, name: &Text) -> Result<Option<Vec<u8>>, NoMemory>
        ensures bytes { (journal : List Entry) → IsIndexOf self.now journal
            → IfOk result (λ found. IfSome found (λ bytes. bytes.items ≡ words.untaken_bytes name.now journal)) }
        ensures here { (journal : List Entry) → IsIndexOf self.now journal
            → is_some (words.holder Reads name.now journal) ≡ true
            → IfOk result (λ found. IsSome found) }
    {
        self.pipes.copy(alloc, name)
    }

    /// The run that holds this end of the pipe.
    pub fn holder(&self, way: Way, name: &Text) -> Option<u32>
        ensures { (journal : List Entry) → IsIndexOf self.now journal → result
            ≡ words.holder way name.now journal }
    {
        let hold = self.pipes.ends(name).hold(way)?;
        if self.is_gone(hold) {
            None
        } else {
            Some(hold.run)
        }
    }

    /// The run holds this end of the pipe, by what it called and was told.
    pub fn holds(&self, way: Way, name: &Text, run: u32) -> bool
        ensures { (journal : List Entry) → IsIndexOf self.now journal → result
            ≡ fitting.holds way name.now (fitting.exchange_of run journal) }
    {
        is_run(run, self.holder(way, name))
    }

    /// The place at which the last session of the pipe began.
    pub fn session(&self, name: &Text) -> Option<Place>
        ensures { (journal : List Entry) → IsIndexOf self.now journal
            → option_map (λ place. place.0) result ≡ words.session name.now journal }
    {
        match self.pipes.ends(name).session {
            Some(place) => Some(Place(place)),
            None => None,
        }
    }

    /// The last session of the pipe had its writer already.
    pub fn had_writer(&self, name: &Text) -> bool
        ensures { (journal : List Entry) → IsIndexOf self.now journal → result
            ≡ words.had_writer name.now journal }
    {
        self.pipes.ends(name).had_writer
    }

    /// The pipe's reader is the one that its writer was opened for.
    pub fn is_joined(&self, name: &Text) -> bool
        ensures { (journal : List Entry) → IsIndexOf self.now journal → result
            ≡ words.is_joined name.now journal }
    {
        let ends = self.pipes.ends(name);
        self.holder(Way::Reads, name).is_some() && is_session(ends.session, ends.joined)
    }

    /// The writer of the pipe's last session has closed.
    pub fn is_ended(&self, name: &Text) -> bool
        ensures { (journal : List Entry) → IsIndexOf self.now journal → result
            ≡ words.is_ended name.now journal }
    {
        self.had_writer(name) && self.holder(Way::Writes, name).is_none()
    }

    /// The run has finished since it opened the end.
    fn is_gone(&self, hold: Hold) -> bool
        ensures { (journal : List Entry) → IsIndexOf self.now journal → result
            ≡ index.is_gone (λ k. index.last_finish k journal) hold }
    {
        match at(&self.finishes, hold.run, None) {
            Some(place) => hold.since < place,
            None => false,
        }
    }
}
