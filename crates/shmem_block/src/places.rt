//! A place in a journal under each of some names.
ghost use Rattle.std.specs.Prelude.{◌≡◌, ◌<◌, ◌^◌, ℕ, List, None, OnOk, IsOk};
ghost use Rattle.shmem_block.specs.Names.{place_under, IsKnown, IsPut};

use indexmap::IndexMap;
use mos_text::{NoMemory, Text};
use std::alloc::Global;

/// The last place that was put under each name. A name is known before a place is put under it, so that
/// putting takes no memory.
#[derive(Drop)]
pub struct Places {
    places: IndexMap<String, Option<u32>>,
}

impl Places {
    /// No name is known.
    pub fn new(alloc: Global) -> Places
        ensures { (name : List ℕ) → place_under name result ≡ None }
    {
        Places {
            places: IndexMap::new(alloc),
        }
    }

    /// The last place under the name.
    pub fn place(&self, name: &Text) -> Option<u32>
        ensures { result ≡ place_under name.now self.now }
    {
        self.places.get(name.as_str()).copied().flatten()
    }

    /// Makes the name known, with nothing under it so far.
    pub fn know(&mut self, alloc: Global, name: &Text) -> Result<(), NoMemory>
        ensures known { OnOk result (IsKnown name.now self.new) }
        ensures places { (q : List ℕ) → place_under q self.new ≡ place_under q self.old }
        ensures sure { IsKnown name.now self.old → IsOk result }
    {
        if self.places.contains_key(name.as_str()) {
            return Ok(());
        }
        let key = String::from_str(alloc, name.as_str())?;
        self.places.insert(key, None)?;
        Ok(())
    }

    /// Puts a place under a name that is known.
    pub fn put(&mut self, name: &Text, place: u32)
        requires { IsKnown name.now self.old }
        ensures { IsPut self.old self.new name.now place }
    {
        if let Some(last) = self.places.get_mut(name.as_str()) {
            *last = Some(place);
        }
    }
}
