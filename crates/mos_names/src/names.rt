//! Distinct names in their order.
ghost use Rattle.std.specs.Prelude.{◌≡◌, [], ◌≤◌, ◌↔◌, IsTrue, IfOk, OnOk, OnErr, length};
ghost use Rattle.mos_names.specs.NameLists.{place_of};
ghost use Rattle.mos_names.specs.NameLists.{has_name, with_name};

use indexmap::IndexSet;
use mos_text::{NoMemory, Text};
use sqlite_items::Items;
use std::alloc::Global;
use std::marker::Model;

/// Distinct names, in the order in which they were first noted. Each is found by its hash, in expected
/// constant time.
#[derive(Debug, Drop)]
pub struct Names<'a> {
    noted: IndexSet<&'a str>,
}

impl<'a> Model for Names<'a> {
    ghost use Rattle.std.specs.Prelude.{List, ℕ, map};
    ghost use Rattle.std.specs.Map.Iter.{deref};

    ghost Value = { List (List ℕ) };

    ghost view = { λ n. map deref n.noted.keys };
}

impl<'a> Names<'a> {
    /// No names; it takes no memory.
    pub fn new(alloc: Global) -> Names<'a>
        ensures { result ≡ [] }
    {
        Names {
            noted: IndexSet::new(alloc),
        }
    }

    /// How many names there are.
    pub fn len(&self) -> usize
        ensures { result ≡ length self.now }
    {
        self.noted.len()
    }

    /// Whether there are none.
    pub fn is_empty(&self) -> bool
        ensures { IsTrue result ↔ (self.now ≡ []) }
    {
        self.noted.is_empty()
    }

    /// Whether the name is one of these.
    pub fn has(&self, name: &Text) -> bool
        ensures { result ≡ has_name name.now self.now }
    {
        self.noted.contains(name.as_str())
    }

    /// The place of a name; that behind the last where it is not there.
    pub fn place(&self, name: &Text) -> usize
        ensures place { result ≡ place_of name.now self.now }
        ensures within { result ≤ length self.now }
    {
        match self.noted.get_index_of(name.as_str()) {
            Some(place) => place,
            None => self.noted.len(),
        }
    }

    /// Adds the name behind the others if it is none of them. Where memory is wanting nothing is changed.
    pub fn note(&mut self, name: &'a Text) -> Result<(), NoMemory>
        ensures noted { OnOk result (self.new ≡ with_name self.old name.now) }
        ensures same { OnErr result (self.new ≡ self.old) }
    {
        self.noted.insert(name.as_str())?;
        Ok(())
    }

    /// A copy of the names, in their order, or that memory is wanting.
    pub fn texts(&self, alloc: Global) -> Result<Items<Text>, NoMemory>
        ensures { IfOk result (λ texts. texts ≡ self.now) }
    {
        let mut texts = Items::new(alloc);
        for name in self.noted.as_slice() {
            texts.push(Text::from_string(String::from_str(alloc, name)?))?;
        }
        Ok(texts)
    }
}
