//! How the hub serves a call: each kind of call that leaves an entry.
ghost use Rattle.std.specs.Prelude.{◌≡◌, ◌<◌, ◌^◌};
ghost use Rattle.hub_index.specs.Journals.{room_of};

use crate::answers::answer_of;
use crate::held::{Acted, Held};
use crate::hub::Hub;
use crate::kept::{Kept, add, make_place, start_with, swap, wanted_for};
use crate::turn::{Turn, turn_of};
use hub_index::Journal;
use hub_words::Lookups;
use job_calls::{Answer, Call, End, Entry, Reply};
use job_laws::laws;
use mos_text::{NoMemory, Place};

impl Hub {
    ghost use Rattle.std.specs.Prelude.{◌≡◌, ◌≢◌, ℕ, ◌<◌, ◌≤◌, ◌+◌, false, Some, None, length, IfOk, IfErr, IsOk, IsSome, OnOk, OnErr, IsTrue};
    ghost use Rattle.job_calls.specs.Entries.{has_quit, is_claim, unclaimed_run};
    ghost use Rattle.job_calls.specs.Replies.{is_plain};
    ghost use Rattle.job_calls.specs.declared.call.Call.TheVariants.{Claim, Finish};
    ghost use Rattle.job_calls.specs.declared.reply.Reply.TheVariants.{Unit as UnitReply};
    ghost use Rattle.job_calls.specs.Legal.{IsLegal};
    ghost use Rattle.hub_core.specs.Hubs.{journal_of, spare_of, with_entry, MayMake, IsAnswered, IsHeldBack, LacksMemory, LacksDone};
    ghost use Rattle.hub_core.specs.Room.{takes_no_memory};
    ghost use Rattle.hub_core.specs.Serving.{Serves, Given};
    ghost use Rattle.hub_core.specs.Keeping.{StartsWith, GivesRun, wanted_for};

    /// Answers the call, and puts it with its reply at the end of the journal.
    pub(crate) fn serve(&mut self, lane: u32, run: Option<u32>, call: Call) -> Result<Acted, Held>
        requires { MayMake (journal_of self.old) lane run call }
        ensures serves { Serves self.old self.new lane run call result }
        ensures room { IfErr result (λ held. LacksMemory (spare_of self.old) call held) }
    {
        match call {
            Call::Claim => self.serve_claim(lane, run),
            Call::Finish(end) => self.serve_end(lane, run, end),
            call => self.serve_other(lane, run, call),
        }
    }

    /// Gives the lane the next run, or tells it that the job is done. A run that no lane was given is given without
    /// memory, and the room for other entries stays.
    pub fn claim(&mut self, lane: u32) -> Result<Acted, Held>
        requires { MayMake (journal_of self.old) lane None Claim }
        ensures answered { IfOk result (λ acted. IsAnswered (journal_of self.old) lane None Claim acted.reply) }
        ensures put { IfOk result (λ acted. journal_of self.new ≡ with_entry (journal_of self.old) lane None Claim acted.reply) }
        ensures place { IfOk result (λ acted. acted.place.0 ≡ length (journal_of self.old)) }
        ensures held { IfErr result (λ held. IsHeldBack (journal_of self.old) lane None Claim held) }
        ensures given { IfErr result (λ held. LacksDone self.old held) }
        ensures stays { OnErr result (journal_of self.new ≡ journal_of self.old) }
        ensures legal { IsLegal (journal_of self.new) }
        ensures spare { spare_of self.old ≤ spare_of self.new + 1 }
        ensures own { IsSome (unclaimed_run (journal_of self.old)) → spare_of self.old ≤ spare_of self.new }
        ensures kept { OnErr result (spare_of self.old ≤ spare_of self.new) }
    {
        self.take_turn(lane)
    }

    /// The same, in one.
    fn take_turn(&mut self, lane: u32) -> Result<Acted, Held>
        requires { MayMake (journal_of self.old) lane None Claim }
        ensures serves { Serves self.old self.new lane None Claim result }
        ensures given { IfErr result (λ held. LacksDone self.old held) }
        ensures own { IsSome (unclaimed_run (journal_of self.old)) → spare_of self.old ≤ spare_of self.new }
    {
        laws::few_entries();
        laws::few_files();
        self.journal.is_legal();
        match turn_of(&self.journal, lane) {
            Turn::Gives(run) => Ok(self.give(lane, run)),
            Turn::Done => self.settle(lane, None, Call::Claim, Reply::Done),
            Turn::NotYet => Err(Held::NotYet(Call::Claim)),
            Turn::Shut => Err(Held::Shut(Call::Claim)),
        }
    }

    /// The run, which the lane was given and which goes on, has ended so. It takes no memory.
    pub fn finish(&mut self, lane: u32, run: u32, end: End) -> Acted
        requires fit { MayMake (journal_of self.old) lane (Some run) (Finish end) }
        requires goes_on { has_quit (journal_of self.old) ≡ false }
        ensures reply { result.reply ≡ UnitReply }
        ensures answered { IsAnswered (journal_of self.old) lane (Some run) (Finish end) result.reply }
        ensures put { journal_of self.new ≡ with_entry (journal_of self.old) lane (Some run) (Finish end) result.reply }
        ensures place { result.place.0 ≡ length (journal_of self.old) }
        ensures legal { IsLegal (journal_of self.new) }
        ensures spare { spare_of self.new ≡ spare_of self.old }
    {
        laws::few_entries();
        laws::grows();
        laws::sources_stay();
        self.journal.callers_are_live();
        let place = Place(self.journal.count() as u32);
        let was = swap(&mut self.kept, run, Kept::Ended);
        self.total -= was.room();
        let entry = Entry {
            lane,
            run: Some(run),
            call: Call::Finish(end),
            reply: Reply::Unit,
        };
        if self.journal.add(entry).is_err() {
            unreachable!();
        }
        Acted {
            place,
            reply: Reply::Unit,
        }
    }

    /// Gives the lane this run, for which room and texts are kept.
    fn give(&mut self, lane: u32, run: u32) -> Acted
        requires fit { MayMake (journal_of self.old) lane None Claim }
        requires gives { GivesRun (journal_of self.old) lane run }
        ensures { Given self.old self.new lane None Claim result }
    {
        laws::few_entries();
        laws::grows();
        laws::sources_stay();
        laws::runs_have_sources();
        let place = Place(self.journal.count() as u32);
        let Some(source) = self.journal.source_of(run) else {
            unreachable!()
        };
        let Kept::Unclaimed { entry, reply } = swap(&mut self.kept, run, Kept::Claimed) else {
            unreachable!()
        };
        self.total -= 1;
        let entry = Entry {
            lane,
            run: None,
            call: Call::Claim,
            reply: Reply::Claimed {
                run,
                source,
                params: entry,
            },
        };
        if self.journal.add(entry).is_err() {
            unreachable!();
        }
        let reply = Reply::Claimed {
            run,
            source,
            params: reply,
        };
        Acted { place, reply }
    }

    /// A claim is made for no run.
    fn serve_claim(&mut self, lane: u32, run: Option<u32>) -> Result<Acted, Held>
        requires { MayMake (journal_of self.old) lane run Claim }
        ensures serves { Serves self.old self.new lane run Claim result }
        ensures room { IfErr result (λ held. LacksMemory (spare_of self.old) Claim held) }
    {
        match run {
            None => self.take_turn(lane),
            Some(_) => unreachable!(),
        }
    }

    /// The end of a run is served while no lane has ended the job.
    fn serve_end(&mut self, lane: u32, run: Option<u32>, end: End) -> Result<Acted, Held>
        requires { MayMake (journal_of self.old) lane run (Finish end) }
        ensures serves { Serves self.old self.new lane run (Finish end) result }
        ensures room { IfErr result (λ held. LacksMemory (spare_of self.old) (Finish end) held) }
    {
        if self.journal.has_quit() {
            return Err(Held::Shut(Call::Finish(end)));
        }
        match run {
            Some(run) => Ok(self.finish(lane, run, end)),
            None => unreachable!(),
        }
    }

    /// Any other call is answered by the table.
    fn serve_other(&mut self, lane: u32, run: Option<u32>, call: Call) -> Result<Acted, Held>
        requires fit { MayMake (journal_of self.old) lane run call }
        requires other { is_claim call ≡ false }
        ensures serves { Serves self.old self.new lane run call result }
        ensures room { IfErr result (λ held. LacksMemory (spare_of self.old) call held) }
    {
        laws::few_entries();
        laws::few_files();
        self.journal.is_legal();
        match answer_of(self.alloc, &self.journal, lane, run, &call) {
            Err(_) => Err(Held::NoMemory(call)),
            Ok(Answer::NotYet) => Err(Held::NotYet(call)),
            Ok(Answer::Shut) => Err(Held::Shut(call)),
            Ok(Answer::Ready(reply)) => self.settle(lane, run, call, reply),
        }
    }

    /// The call is answered so: makes all room for its entry, and puts it.
    fn settle(
        &mut self,
        lane: u32,
        run: Option<u32>,
        call: Call,
        reply: Reply,
    ) -> Result<Acted, Held>
        requires fit { MayMake (journal_of self.old) lane run call }
        requires answer { IsAnswered (journal_of self.old) lane run call reply }
        ensures serves { Serves self.old self.new lane run call result }
        ensures room { 1 ≤ spare_of self.old → IsTrue (is_plain reply) → IsTrue (takes_no_memory call)
            → IsOk result }
    {
        laws::answers_fit();
        reply.in_range();
        match start_with(self.alloc, &call, &reply) {
            Err(_) => Err(Held::NoMemory(call)),
            Ok(kept) => self.put(lane, run, call, reply, kept),
        }
    }

    /// Makes room for one entry more, and for what is to be kept for a run that starts.
    fn make_room(&mut self, kept: &Option<Kept>) -> Result<(), NoMemory>
        ensures journal { journal_of self.new ≡ journal_of self.old }
        ensures room { OnOk result (1 + wanted_for kept.now ≤ spare_of self.new) }
        ensures enough { OnOk result (spare_of self.old + wanted_for kept.now ≤ spare_of self.new) }
        ensures kept { spare_of self.old ≤ spare_of self.new }
        ensures sure { 1 ≤ spare_of self.old → kept.now ≡ None → IsOk result }
    {
        match self.spare.max(1).checked_add(wanted_for(kept)) {
            Some(wanted) => self.reserve(wanted),
            None => Err(NoMemory),
        }
    }

    /// Puts a call with its reply at the end of the journal, and keeps this for a run that starts.
    fn put(
        &mut self,
        lane: u32,
        run: Option<u32>,
        call: Call,
        reply: Reply,
        kept: Option<Kept>,
    ) -> Result<Acted, Held>
        requires fit { MayMake (journal_of self.old) lane run call }
        requires answer { IsAnswered (journal_of self.old) lane run call reply }
        requires starts { StartsWith call reply kept }
        ensures serves { Serves self.old self.new lane run call result }
        ensures room { 1 ≤ spare_of self.old → IsTrue (is_plain reply) → IsTrue (takes_no_memory call)
            → kept ≡ None → IsOk result }
    {
        let place = Place(self.count());
        let Ok(again) = reply.copy(self.alloc) else {
            return Err(Held::NoMemory(call));
        };
        if self.make_room(&kept).is_err() {
            return Err(Held::NoMemory(call));
        }
        match self.record(lane, run, call, again, kept) {
            Ok(()) => Ok(Acted { place, reply }),
            Err(call) => Err(Held::NoMemory(call)),
        }
    }

    /// Records an entry for which there is room.
    fn record(
        &mut self,
        lane: u32,
        run: Option<u32>,
        call: Call,
        reply: Reply,
        kept: Option<Kept>,
    ) -> Result<(), Call>
        requires fit { MayMake (journal_of self.old) lane run call }
        requires answer { IsAnswered (journal_of self.old) lane run call reply }
        requires starts { StartsWith call reply kept }
        requires room { 1 + wanted_for kept ≤ spare_of self.old }
        ensures recorded { OnOk result (journal_of self.new ≡ with_entry (journal_of self.old) lane run call reply) }
        ensures spare { OnOk result (spare_of self.old ≡ spare_of self.new + 1 + wanted_for kept) }
        ensures stays { OnErr result (self.new ≡ self.old) }
        ensures same { IfErr result (λ same. same ≡ call) }
        ensures legal { IsLegal (journal_of self.new) }
        ensures sure { IsTrue (takes_no_memory call) → kept ≡ None → IsOk result }
    {
        laws::grows();
        laws::sources_stay();
        room_fits(&self.journal);
        if make_place(&mut self.kept, &kept).is_err() {
            return Err(call);
        }
        let wanted = wanted_for(&kept);
        let entry = Entry {
            lane,
            run,
            call,
            reply,
        };
        if let Err(entry) = self.journal.add(entry) {
            return Err(call_of(entry));
        }
        self.spare -= 1 + wanted;
        self.total += wanted;
        add(&mut self.kept, kept);
        Ok(())
    }
}

/// The room of a journal fits a word: it does nothing, and says so.
fn room_fits(journal: &Journal)
    ensures { room_of journal.now < 2 ^ 64 }
{
    let _ = journal.room();
}

/// The call of an entry.
fn call_of(entry: Entry) -> Call
    ensures { result ≡ entry.call }
{
    let Entry {
        lane: _,
        run: _,
        call,
        reply: _,
    } = entry;
    call
}
