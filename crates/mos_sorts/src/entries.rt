//! Declared names in the order of their declarations, each found by its hash.
ghost use Rattle.std.specs.Prelude.{◌≡◌, ◌++◌, [], ◌∷◌, None, option_copied, OnOk, OnErr};
ghost use Rattle.std.specs.List.{list_any};
ghost use Rattle.std.specs.Str.{bytes_eq};
ghost use Rattle.mos_sorts.specs.Entries as spec;
ghost use Rattle.mos_sorts.specs.Entries.{StandsAt};

use crate::Entry;
use indexmap::IndexMap;
use mos_text::{NoMemory, SourceText};
use sqlite_items::Items;
use std::alloc::Global;
use std::marker::Model;

/// Declared names in the order of their declarations; of one name the last counts. Each is found in
/// expected constant time.
#[derive(Drop)]
pub struct Entries {
    all: Items<Entry>,
    /// Where the last entry of each name stands.
    places: IndexMap<String, usize>,
}

impl Model for Entries {
    ghost use Rattle.std.specs.Prelude.{List};
    ghost use Rattle.indexmap.specs.IndexMap.{get_by_text};
    ghost use Rattle.mos_sorts.specs.declared.scope.Entry.{Entry};
    ghost use Rattle.mos_sorts.specs.Entries.{AreLatest};

    ghost Value = { List Entry };

    ghost view = { λ it. it.all };

    ghost invariant = { λ it. AreLatest (get_by_text it.places) it.all };
}

impl Entries {
    /// No names; it takes no memory.
    pub fn new(alloc: Global) -> Entries
        ensures { result ≡ [] }
    {
        Entries {
            all: Items::new(alloc),
            places: IndexMap::new(alloc),
        }
    }

    /// All entries, in order.
    pub fn as_slice(&self) -> &[Entry]
        ensures { result.now ≡ self.now }
    {
        self.all.as_slice()
    }

    /// The last entry of this name.
    pub fn latest(&self, name: &SourceText) -> Option<&Entry>
        ensures { option_copied result ≡ spec.latest name.now None self.now }
    {
        match self.place_of(name) {
            Some(place) => self.all.get(place),
            None => None,
        }
    }

    /// Where the last entry of this name stands.
    fn place_of(&self, name: &SourceText) -> Option<usize>
        ensures { StandsAt result (spec.latest name.now None self.now) self.now }
    {
        self.places.get(name.as_str()).copied()
    }

    /// Whether there is an entry of this name.
    pub fn has(&self, name: &SourceText) -> bool
        ensures { result ≡ list_any (λ e. bytes_eq name.now e.name) self.now }
    {
        self.latest(name).is_some()
    }

    /// Adds an entry behind the others. Where memory is wanting nothing is changed.
    pub fn push(&mut self, alloc: Global, entry: Entry) -> Result<(), NoMemory>
        ensures added { OnOk result (self.new ≡ self.old ++ entry ∷ []) }
        ensures same { OnErr result (self.new ≡ self.old) }
    {
        let name = String::from_str(alloc, entry.name.as_str())?;
        let place = self.all.len();
        self.all.push(entry)?;
        match self.places.insert(name, place) {
            Ok(_) => Ok(()),
            Err(refused) => {
                self.all.pop();
                Err(refused.into())
            }
        }
    }
}
