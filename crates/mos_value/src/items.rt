//! The items of a set or list.
ghost use Rattle.std.specs.Prelude.{◌≡◌, [], ◌∷◌, ◌++◌, ◌↔◌, ◌≤◌, not, if◌then◌else◌, IsTrue, IfOk, length, take};
ghost use Rattle.mos_value.specs.Collections.{collection_limit, collection_of};
ghost use Rattle.mos_value.specs.UpToMemory.{Becomes};
ghost use Rattle.mos_value.specs.Indexes.{kept};
ghost use Rattle.mos_value.specs.Ranges.{range_members};
ghost use Rattle.mos_value.specs.Sets.{has_member, with_member, inter, minus};
ghost use Rattle.std.specs.List.{list_all};

use crate::index::{Index, run_of};
use crate::{COLLECTION_LIMIT, ValueFault, same_one};
use mos_text::{FaultKind, NoMemory, Scalar};
use std::alloc::Global;
use std::marker::Model;
use std::mem::replace;

/// The members of a set, or the items of a list: at most 1,000,000 scalars in their order. Of integers
/// or texts that were added to a set one is found in expected constant time.
#[derive(Debug, Drop)]
pub struct Items {
    scalars: Vec<Scalar>,
    index: Index,
}

impl Model for Items {
    ghost use Rattle.std.specs.Prelude.{List, ◌≤◌, length};
    ghost use Rattle.mos_text.specs.declared.scalar.Scalar.{Scalar};
    ghost use Rattle.mos_value.specs.Collections.{collection_limit};
    ghost use Rattle.mos_value.specs.Indexes.{IsIndexOf};

    ghost Value = { List Scalar };

    ghost view = { λ it. it.scalars.items };

    ghost invariant = { λ it. (length it.scalars.items ≤ collection_limit) × IsIndexOf it.index it.scalars.items };
}

impl Items {
    /// No items; it takes no memory.
    pub fn new(alloc: Global) -> Items
        ensures { result ≡ [] }
    {
        Items {
            scalars: Vec::new(alloc),
            index: Index::Empty,
        }
    }

    /// How many items there are, at most 1,000,000.
    pub fn len(&self) -> usize
        ensures length { result ≡ length self.now }
        ensures limited { result ≤ collection_limit }
    {
        self.scalars.len()
    }

    /// Whether there are none.
    pub fn is_empty(&self) -> bool
        ensures { IsTrue result ↔ (self.now ≡ []) }
    {
        self.scalars.is_empty()
    }

    /// The items.
    pub fn as_slice(&self) -> &[Scalar]
        ensures { result.now ≡ self.now }
    {
        self.scalars.as_slice()
    }

    /// Adds the item at the end. Where it is refused nothing is changed.
    pub fn push(&mut self, item: Scalar) -> Result<(), ValueFault>
        ensures { Becomes self.old self.new result (collection_of (self.old ++ item ∷ [])) }
    {
        self.index = Index::Searched;
        push_within(&mut self.scalars, item)
    }

    /// Whether the scalar is one of these.
    pub(crate) fn has(&self, x: &Scalar) -> bool
        ensures { result ≡ has_member x.now self.now }
    {
        match self.index.tells(x) {
            Some(is) => is,
            None => self.scalars.iter().any(|item| same_one(x, item)),
        }
    }

    /// Adds a copy of the scalar at the end, where it is none of these. Where it is refused nothing is
    /// changed.
    #[tactic(auto, using(crate::proofs::CollectionLemmas::collection_few))]
    pub(crate) fn insert(&mut self, alloc: Global, x: &Scalar) -> Result<(), ValueFault>
        ensures { Becomes self.old self.new result (collection_of (with_member self.old x.now)) }
    {
        if self.has(x) {
            return Ok(());
        }
        push_within(&mut self.scalars, x.copy(alloc)?)?;
        let index = replace(&mut self.index, Index::Searched);
        self.index = index.with(alloc, self.scalars.as_slice(), x);
        Ok(())
    }

    /// Keeps the first so many items.
    pub(crate) fn truncate(&mut self, many: usize)
        ensures { self.new ≡ take many self.old }
    {
        self.index = Index::Searched;
        self.scalars.truncate(many);
    }

    /// Keeps the items that the others have.
    pub(crate) fn keep_those_of(&mut self, others: &Items)
        ensures kept { self.new ≡ inter self.old others.now }
        ensures limited { length self.new ≤ collection_limit }
    {
        self.keep(others, true);
    }

    /// Keeps the items that the others lack.
    pub(crate) fn drop_those_of(&mut self, others: &Items)
        ensures kept { self.new ≡ minus self.old others.now }
        ensures limited { length self.new ≤ collection_limit }
    {
        self.keep(others, false);
    }

    /// Keeps the items that the others have, or those that they lack.
    fn keep(&mut self, others: &Items, are: bool)
        ensures kept { self.new ≡ kept are others.now self.old }
        ensures limited { length self.new ≤ collection_limit }
    {
        self.scalars.retain(|item| others.agrees(item, are));
        let alloc = *self.scalars.allocator();
        let index = replace(&mut self.index, Index::Searched);
        self.index = index.kept(alloc, others, are, self.scalars.as_slice());
    }

    /// Whether the scalar is one of these, or whether it is none of them.
    pub(crate) fn agrees(&self, x: &Scalar, is: bool) -> bool
        ensures { result ≡ (if is then has_member x.now self.now else not (has_member x.now self.now)) }
    {
        if is { self.has(x) } else { !self.has(x) }
    }

    /// A copy of these, or that memory is wanting.
    pub fn copy(&self, alloc: Global) -> Result<Items, NoMemory>
        ensures { IfOk result (λ copy. copy ≡ self.now) }
    {
        let scalars = copies(alloc, self.scalars.as_slice())?;
        Ok(Items {
            scalars,
            index: self.index.copy(),
        })
    }

    /// Adds the others at the end. Where they are refused nothing is changed.
    #[tactic(auto, using(crate::proofs::CollectionLemmas::collection_few, crate::proofs::CollectionLemmas::collection_many))]
    pub(crate) fn append(&mut self, others: Items) -> Result<(), ValueFault>
        ensures { Becomes self.old self.new result (collection_of (self.old ++ others)) }
    {
        if self.scalars.len() + others.len() > COLLECTION_LIMIT {
            return Err(ValueFault::Fault(FaultKind::TooBig));
        }
        let Items { mut scalars, .. } = others;
        self.index = Index::Searched;
        self.scalars.append(&mut scalars)?;
        Ok(())
    }

    /// The same items, which are the integers from the first to the last.
    pub(crate) fn into_run(self, first: i32, last: i32) -> Items
        requires { self ≡ range_members first last }
        ensures { result ≡ range_members first last }
    {
        let Items { scalars, .. } = self;
        Items {
            scalars,
            index: run_of(first, last),
        }
    }

    /// Whether the others have each of these.
    pub(crate) fn are_all_in(&self, others: &Items) -> bool
        ensures { result ≡ list_all (λ x. has_member x others.now) self.now }
    {
        self.scalars.iter().all(|item| others.has(item))
    }
}

/// Adds the item at the end of those of a collection, unless it has no room for it.
#[tactic(auto, using(crate::proofs::CollectionLemmas::collection_few, crate::proofs::CollectionLemmas::collection_many))]
fn push_within(scalars: &mut Vec<Scalar>, item: Scalar) -> Result<(), ValueFault>
    ensures { Becomes scalars.old.items scalars.new.items result (collection_of (scalars.old.items ++ item ∷ [])) }
{
    if scalars.len() < COLLECTION_LIMIT {
        scalars.push(item)?;
        Ok(())
    } else {
        Err(ValueFault::Fault(FaultKind::TooBig))
    }
}

/// A copy of each.
fn copies(alloc: Global, scalars: &[Scalar]) -> Result<Vec<Scalar>, NoMemory>
    ensures { IfOk result (λ copied. copied.items ≡ scalars.now) }
{
    let mut copied = Vec::new(alloc);
    for scalar in scalars {
        copied.push(scalar.copy(alloc)?)?;
    }
    Ok(copied)
}
