//! A journal that keeps its indexes.
ghost use Rattle.std.specs.Prelude.{◌≡◌, ◌≤◌, ◌<◌, ◌++◌, [], ◌∷◌, length, vec_capacity};

use crate::index::HubIndex;
use job_calls::Entry;
use job_laws::laws;
use mos_text::NoMemory;
use sqlite_items::Items;
use std::alloc::Global;
use std::marker::Model;

/// The entries of a legal journal, with the indexes that stand for it. Contracts see the list of entries
/// and the number of those that there is room for.
#[derive(Drop)]
pub struct Journal {
    pub(crate) entries: Vec<Entry>,
    pub(crate) index: HubIndex,
}

impl Model for Journal {
    ghost use Rattle.std.specs.Prelude.{ℕ, ◌-◌, List, length, vec_capacity};
    ghost use Rattle.job_calls.specs.declared.entry.Entry.{Entry};
    ghost use Rattle.job_calls.specs.Legal.{IsLegal};
    ghost use Rattle.hub_index.specs.Index.{IsIndexOf};

    ghost Value = { List Entry × ℕ };

    ghost view = { λ j. (j.entries.items, vec_capacity j.entries - length j.entries.items) };

    ghost invariant = { λ j. IsLegal j.entries.items × IsIndexOf j.index j.entries.items };
}

impl Journal {
    ghost use Rattle.std.specs.Prelude.{◌≡◌, ℕ, ◌≤◌, ◌+◌, ◌++◌, [], ◌∷◌, true, Some, IfOk, IfErr, IsOk, OnOk, OnErr, IsTrue};
    ghost use Rattle.job_calls.specs.declared.call.Call.{Call};
    ghost use Rattle.job_calls.specs.Entries.{is_claimed};
    ghost use Rattle.job_calls.specs.Models.{is_live};
    ghost use Rattle.job_calls.specs.Legal.{IsLegal};
    ghost use Rattle.hub_index.specs.Journals.{entries_of, room_of, MayMake};
    ghost use Rattle.hub_index.specs.Light.{is_light};

    /// The journal of this entry alone.
    pub fn new(alloc: Global, entry: Entry) -> Result<Journal, NoMemory>
        requires { IsLegal (entry ∷ []) }
        ensures { IfOk result (λ journal. entries_of journal ≡ entry ∷ []) }
    {
        let mut index = HubIndex::new(alloc)?;
        index.note(&entry)?;
        let mut entries = Vec::new(alloc);
        entries.push(entry)?;
        Ok(Journal { entries, index })
    }

    /// The entries, in order.
    pub fn entries(&self) -> &[Entry]
        ensures { result.now ≡ entries_of self.now }
    {
        self.entries.as_slice()
    }

    /// Gives the entries away; it takes no memory.
    pub fn into_entries(self) -> Items<Entry>
        ensures { result ≡ entries_of self }
    {
        let Journal { entries, index: _ } = self;
        Items::from_vec(entries)
    }

    /// How many entries there is room for.
    pub fn room(&self) -> usize
        ensures { result ≡ room_of self.now }
    {
        self.entries.capacity() - self.entries.len()
    }

    /// Makes room for so many entries more; without memory the room stays.
    pub fn make_room(&mut self, many: usize) -> Result<(), NoMemory>
        ensures entries { entries_of self.new ≡ entries_of self.old }
        ensures room { OnOk result (many ≤ room_of self.new) }
        ensures kept { room_of self.old ≤ room_of self.new }
        ensures sure { many ≤ room_of self.old → IsOk result }
    {
        self.entries.reserve(many)?;
        Ok(())
    }

    /// The journal is legal: it does nothing, and says so.
    pub fn is_legal(&self)
        ensures { IsLegal (entries_of self.now) }
    {
        let _ = &self.entries;
    }

    /// A lane calls for a run that it was given and that goes on: it does nothing, and says so.
    pub fn callers_are_live(&self)
        ensures given { (lane run : ℕ) (call : Call) → MayMake (entries_of self.now) lane (Some run) call
            → is_claimed run (entries_of self.now) ≡ true }
        ensures live { (lane run : ℕ) (call : Call) → MayMake (entries_of self.now) lane (Some run) call
            → is_live run (entries_of self.now) ≡ true }
    {
        laws::grows();
        laws::given_in_order();
        laws::one_lane_a_run();
        let _ = &self.entries;
    }

    /// Puts an entry at the end, for which there is room. Where an index finds no memory for it, it is handed
    /// back, and the journal and its room stay.
    pub fn add(&mut self, entry: Entry) -> Result<(), Entry>
        requires legal { IsLegal (entries_of self.old ++ entry ∷ []) }
        requires room { 1 ≤ room_of self.old }
        ensures added { OnOk result (entries_of self.new ≡ entries_of self.old ++ entry ∷ []) }
        ensures room { OnOk result (room_of self.old ≤ room_of self.new + 1) }
        ensures stays { OnErr result (self.new ≡ self.old) }
        ensures same { IfErr result (λ e. e ≡ entry) }
        ensures sure { IsTrue (is_light entry.call) → IsOk result }
    {
        self.index.can_note(&entry);
        if self.index.ready_for(&entry).is_err() {
            return Err(entry);
        }
        self.index.take(&entry);
        put_last(&mut self.entries, entry);
        Ok(())
    }
}

/// Puts an entry at the end, for which there is room.
fn put_last(entries: &mut Vec<Entry>, entry: Entry)
    requires { length entries.old.items < vec_capacity entries.old }
    ensures items { entries.new.items ≡ entries.old.items ++ entry ∷ [] }
    ensures capacity { vec_capacity entries.old ≤ vec_capacity entries.new }
{
    if entries.push(entry).is_err() {
        unreachable!();
    }
}
