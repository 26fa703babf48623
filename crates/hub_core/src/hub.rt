//! The hub itself: a journal that grows by one entry for each call that is answered.
ghost use Rattle.std.specs.Prelude.{IfOk};
ghost use Rattle.job_calls.specs.Replies.{InRange};

use crate::held::{Acted, Held};
use crate::kept::Kept;
use hub_index::Journal;
use hub_words::Lookups;
use job_calls::{Call, Entry, Listed, Reply};
use job_laws::laws;
use mos_text::{NoMemory, Text};
use sqlite_items::Items;
use std::alloc::Global;
use std::marker::Model;

/// One journal with its indexes, from an `Open` on, and room for entries to come. Contracts see the list of its
/// entries and the number of those that it has room for.
///
/// Beside that room it keeps, for each run that goes on, room for the entries by which the run is given to a lane and
/// ends, and the texts of the first.
#[derive(Drop)]
pub struct Hub {
    pub(crate) journal: Journal,
    /// What is kept for each run, at its number.
    pub(crate) kept: Vec<Kept>,
    /// How many entries that is room for.
    pub(crate) total: usize,
    /// How many entries more there is room for.
    pub(crate) spare: usize,
    pub(crate) alloc: Global,
}

impl Model for Hub {
    ghost use Rattle.std.specs.Prelude.{ℕ, List};
    ghost use Rattle.job_calls.specs.declared.entry.Entry.{Entry};
    ghost use Rattle.hub_core.specs.Keeping.{KeepsRoom};

    ghost Value = { List Entry × ℕ };

    ghost view = { λ h. (h.journal.0, h.spare) };

    ghost invariant = { λ h. KeepsRoom h.journal h.kept.items h.total h.spare };
}

impl Hub {
    ghost use Rattle.std.specs.Prelude.{◌≡◌, ℕ, ◌<◌, ◌≤◌, ◌+◌, length, IfOk, IfErr, IsOk, OnOk, OnErr, IsTrue};
    ghost use Rattle.job_calls.specs.Fitting.{fits};
    ghost use Rattle.job_calls.specs.Runs.{opening};
    ghost use Rattle.job_calls.specs.Entries.{own_entries, has_quit};
    ghost use Rattle.job_calls.specs.Legal.{CanOpen, IsLegal};
    ghost use Rattle.job_laws.specs.Truth.{SaysTrue};
    ghost use Rattle.job_laws.specs.Laws.{KeepsLaws};
    ghost use Rattle.hub_core.specs.Hubs.{journal_of, spare_of, opened_with, first_journal, with_entry};
    ghost use Rattle.hub_core.specs.Hubs.{MayMake, IsAnswered, FitsRun, StopsRun, IsHeldBack, LacksMemory};

    /// A hub whose journal is the `Open` alone, with room for the claim and the end of run 0.
    pub fn new(
        alloc: Global,
        lanes: u32,
        budget: u32,
        params: Text,
        files: Items<Listed>,
    ) -> Result<Hub, NoMemory>
        requires { CanOpen (opened_with lanes budget params files) }
        ensures opened { IfOk result (λ hub. journal_of hub ≡ first_journal lanes budget params files) }
        ensures legal { IfOk result (λ hub. IsLegal (journal_of hub)) }
    {
        let first = Kept::unclaimed(alloc, &params)?;
        let mut kept = Vec::new(alloc);
        kept.push(first)?;
        let call = Call::Open {
            lanes,
            budget,
            params,
            files,
        };
        let entry = Entry {
            lane: 0,
            run: None,
            call,
            reply: Reply::Opened,
        };
        let mut journal = Journal::new(alloc, entry)?;
        journal.make_room(2)?;
        Ok(Hub {
            journal,
            kept,
            total: 2,
            spare: 0,
            alloc,
        })
    }

    /// The entries, in order.
    pub fn journal(&self) -> &[Entry]
        ensures { result.now ≡ journal_of self.now }
    {
        self.journal.entries()
    }

    /// Gives the journal away; it takes no memory.
    pub fn into_journal(self) -> Items<Entry>
        ensures { result ≡ journal_of self }
    {
        let Hub {
            journal,
            kept: _,
            total: _,
            spare: _,
            alloc: _,
        } = self;
        journal.into_entries()
    }

    /// Whether the lane may make this call, for itself or for the run.
    pub fn fits(&self, lane: u32, run: Option<u32>, call: &Call) -> bool
        ensures { result ≡ fits (opening (journal_of self.now)) (own_entries lane (journal_of self.now)) lane run call.now }
    {
        self.journal.fits(lane, run, call)
    }

    /// Whether a lane has ended the job before its time; no call is answered any more.
    pub fn has_quit(&self) -> bool
        ensures { result ≡ has_quit (journal_of self.now) }
    {
        self.journal.has_quit()
    }

    /// How many entries there is room for, beside those that are kept for runs.
    pub fn spare_entries(&self) -> usize
        ensures { result ≡ spare_of self.now }
    {
        self.spare
    }

    /// Makes room for so many entries more; without memory the journal and the room stay.
    pub fn reserve_entries(&mut self, count: u32) -> Result<(), NoMemory>
        ensures journal { journal_of self.new ≡ journal_of self.old }
        ensures room { OnOk result (count ≤ spare_of self.new) }
        ensures kept { spare_of self.old ≤ spare_of self.new }
    {
        self.reserve(count as usize)
    }

    /// The same of any number.
    pub(crate) fn reserve(&mut self, count: usize) -> Result<(), NoMemory>
        ensures journal { journal_of self.new ≡ journal_of self.old }
        ensures room { OnOk result (count ≤ spare_of self.new) }
        ensures kept { spare_of self.old ≤ spare_of self.new }
        ensures sure { count ≤ spare_of self.old → IsOk result }
    {
        if count <= self.spare {
            return Ok(());
        }
        let Some(wanted) = self.total.checked_add(count) else {
            return Err(NoMemory);
        };
        self.journal.make_room(wanted)?;
        self.spare = count;
        Ok(())
    }

    /// The number of entries.
    pub fn count(&self) -> u32
        ensures count { result ≡ length (journal_of self.now) }
        ensures legal { IsLegal (journal_of self.now) }
    {
        laws::few_entries();
        self.journal.count() as u32
    }

    /// Answers the call by what the journal says, and puts both at its end; or hands the call back, and
    /// the journal stays as it was.
    pub fn act(&mut self, lane: u32, run: Option<u32>, call: Call) -> Result<Acted, Held>
        requires { MayMake (journal_of self.old) lane run call }
        ensures answered { IfOk result (λ acted. IsAnswered (journal_of self.old) lane run call acted.reply) }
        ensures put { IfOk result (λ acted. journal_of self.new ≡ with_entry (journal_of self.old) lane run call acted.reply) }
        ensures place { IfOk result (λ acted. acted.place.0 ≡ length (journal_of self.old)) }
        ensures held { IfErr result (λ held. IsHeldBack (journal_of self.old) lane run call held) }
        ensures room { IfErr result (λ held. LacksMemory (spare_of self.old) call held) }
        ensures stays { OnErr result (journal_of self.new ≡ journal_of self.old) }
        ensures legal { IsLegal (journal_of self.new) }
        ensures spare { spare_of self.old ≤ spare_of self.new + 1 }
        ensures kept { OnErr result (spare_of self.old ≤ spare_of self.new) }
        ensures fits_call { IfOk result (λ acted. FitsRun call acted.reply) }
        ensures says_true { IfOk result (λ acted. SaysTrue (journal_of self.old) run call acted.reply) }
        ensures stops { IfOk result (λ acted. StopsRun (journal_of self.old) run call acted.reply) }
        ensures laws { KeepsLaws (journal_of self.new) }
        ensures few { length (journal_of self.new) < 1100000 }
    {
        laws::few_entries();
        laws::legal_keeps_laws();
        laws::replies_are_true();
        laws::answers_fit();
        let outcome = self.serve(lane, run, call);
        in_range(&outcome);
        outcome
    }
}

/// What was replied is in the ranges of its types: it does nothing, and says so.
fn in_range(outcome: &Result<Acted, Held>)
    ensures { IfOk outcome.now (λ acted. InRange acted.reply) }
{
    match outcome {
        Ok(acted) => acted.reply.in_range(),
        Err(_) => (),
    }
}
