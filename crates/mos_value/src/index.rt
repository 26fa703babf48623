//! How a member is found without a search: what stands beside the items and tells whether one is there.
ghost use Rattle.std.specs.Prelude.{◌≡◌, ◌+ℤ◌, pos, List, [], ◌∷◌, string_bytes};
ghost use Rattle.std.specs.Bool.{OnTrue};
ghost use Rattle.mos_text.specs.declared.scalar.Scalar.{Scalar};
ghost use Rattle.mos_text.specs.declared.scalar.Scalar.TheVariants.{Int, Str};
ghost use Rattle.mos_value.specs.Indexes.{IsIndexOf, GrowsBy, Tells, Follows, kept, integers, texts as texts_of};
ghost use Rattle.mos_value.specs.Ranges.{range_members};
ghost use Rattle.mos_value.specs.Sets.{IsSet, with_member};
ghost use Rattle.mos_value.specs.declared.index.Index.TheVariants.{Run};

use crate::{Items, range_has};
use indexmap::IndexSet;
use mos_text::{Scalar, Text, let_go};
use std::alloc::Global;

/// What the items are, where that tells how one of them is found.
#[derive(Debug, Drop)]
pub(crate) enum Index {
    /// There are none.
    Empty,
    /// The integers from the first to the last, of which there is one at least.
    Run(i32, i32),
    /// Integers, each once.
    Integers(Box<IndexSet<i32>>),
    /// Texts, each once.
    Texts(Box<IndexSet<String>>),
    /// Items of any kind: one is searched among them.
    Searched,
}

impl Index {
    /// Whether the scalar is one of the items, where the index tells it.
    pub(crate) fn tells(&self, x: &Scalar) -> Option<bool>
        ensures { Tells self.now x.now result }
    {
        match x {
            Scalar::Int(number) => self.tells_integer(*number),
            Scalar::Str(text) => self.tells_text(text),
            Scalar::Bool(_) | Scalar::Model(_) | Scalar::Event(_, _) => None,
        }
    }

    fn tells_integer(&self, number: i32) -> Option<bool>
        ensures { Tells self.now (Int number) result }
    {
        match self {
            Index::Empty => Some(false),
            Index::Run(first, last) => Some(range_has(*first, *last, number)),
            Index::Integers(numbers) => Some(numbers.contains(&number)),
            Index::Texts(_) | Index::Searched => None,
        }
    }

    fn tells_text(&self, text: &Text) -> Option<bool>
        ensures { Tells self.now (Str text.now) result }
    {
        match self {
            Index::Empty => Some(false),
            Index::Texts(texts) => Some(texts.contains(text.as_str())),
            Index::Run(_, _) | Index::Integers(_) | Index::Searched => None,
        }
    }

    /// An index of the items after the scalar, which was none of them, went behind them.
    pub(crate) fn with(self, alloc: Global, after: &[Scalar], x: &Scalar) -> Index
        ensures { Follows self x.now after.now result }
    {
        match x {
            Scalar::Int(number) => self.with_integer(alloc, after, *number),
            Scalar::Str(text) => self.with_text(alloc, text),
            Scalar::Bool(_) | Scalar::Model(_) | Scalar::Event(_, _) => {
                let_go(self);
                Index::Searched
            }
        }
    }

    fn with_integer(self, alloc: Global, after: &[Scalar], number: i32) -> Index
        ensures { Follows self (Int number) after.now result }
    {
        match self {
            Index::Empty => Index::Run(number, number),
            Index::Run(first, last) => run_with(alloc, first, last, after, number),
            Index::Integers(numbers) => integers_with(numbers, number),
            Index::Texts(texts) => {
                let_go(texts);
                Index::Searched
            }
            Index::Searched => Index::Searched,
        }
    }

    fn with_text(self, alloc: Global, text: &Text) -> Index
        ensures { (after : List Scalar) → Follows self (Str text.now) after result }
    {
        match self {
            Index::Empty => first_text(alloc, text),
            Index::Texts(texts) => texts_with(alloc, texts, text),
            Index::Integers(numbers) => {
                let_go(numbers);
                Index::Searched
            }
            Index::Run(_, _) | Index::Searched => Index::Searched,
        }
    }

    /// An index of the items that were kept.
    pub(crate) fn kept(self, alloc: Global, others: &Items, are: bool, left: &[Scalar]) -> Index
        ensures { (items : List Scalar) → IsIndexOf self items → left.now ≡ kept are others.now items → IsIndexOf result left.now }
    {
        match self {
            Index::Empty => Index::Empty,
            Index::Run(_, _) => integers_of(alloc, left),
            Index::Integers(numbers) => integers_kept(numbers, others, are),
            Index::Texts(texts) => {
                let_go(texts);
                Index::Searched
            }
            Index::Searched => Index::Searched,
        }
    }

    /// An index of the same items.
    pub(crate) fn copy(&self) -> Index
        ensures { (items : List Scalar) → IsIndexOf self.now items → IsIndexOf result items }
    {
        match self {
            Index::Empty => Index::Empty,
            Index::Run(first, last) => Index::Run(*first, *last),
            Index::Integers(numbers) => match numbers.clone() {
                Ok(copied) => Index::Integers(copied),
                Err(_) => Index::Searched,
            },
            Index::Texts(texts) => match texts.clone() {
                Ok(copied) => Index::Texts(copied),
                Err(_) => Index::Searched,
            },
            Index::Searched => Index::Searched,
        }
    }
}

/// An index of the integers from the first to the last, of which there may be none.
pub(crate) fn run_of(first: i32, last: i32) -> Index
    ensures { IsIndexOf result (range_members first last) }
{
    if last < first {
        Index::Empty
    } else {
        Index::Run(first, last)
    }
}

/// Whether the number is the one behind the last.
fn is_next(last: i32, number: i32) -> bool
    ensures { OnTrue result (number ≡ last +ℤ pos 1) }
{
    match last.checked_add(1) {
        Some(next) => number == next,
        None => false,
    }
}

fn run_with(alloc: Global, first: i32, last: i32, after: &[Scalar], number: i32) -> Index
    ensures { Follows (Run first last) (Int number) after.now result }
{
    if is_next(last, number) {
        Index::Run(first, number)
    } else {
        integers_of(alloc, after)
    }
}

/// An index of integers of which none stands twice.
fn integers_of(alloc: Global, items: &[Scalar]) -> Index
    ensures { IsSet items.now → IsIndexOf result items.now }
{
    let mut numbers = IndexSet::new(alloc);
    for item in items {
        if !note_integer(&mut numbers, item) {
            let_go(numbers);
            return Index::Searched;
        }
    }
    match Box::new(alloc, numbers) {
        Ok(numbers) => Index::Integers(numbers),
        Err(refused) => {
            let_go(refused);
            Index::Searched
        }
    }
}

/// Notes a scalar among integers; it tells whether it is one and memory was there for it.
fn note_integer(numbers: &mut IndexSet<i32>, item: &Scalar) -> bool
    ensures { OnTrue result (integers numbers.new.keys ≡ with_member (integers numbers.old.keys) item.now) }
{
    match item {
        Scalar::Int(number) => match numbers.insert(*number) {
            Ok(_) => true,
            Err(_) => false,
        },
        Scalar::Bool(_) | Scalar::Str(_) | Scalar::Model(_) | Scalar::Event(_, _) => false,
    }
}

fn integers_with(mut numbers: Box<IndexSet<i32>>, number: i32) -> Index
    ensures { (after : List Scalar) → GrowsBy (integers numbers.value.keys) (Int number) after → IsIndexOf result after }
{
    if note_integer(&mut numbers, &Scalar::Int(number)) {
        Index::Integers(numbers)
    } else {
        let_go(numbers);
        Index::Searched
    }
}

/// An index of the integers that the others have, or of those that they lack.
fn integers_kept(mut numbers: Box<IndexSet<i32>>, others: &Items, are: bool) -> Index
    ensures { IsIndexOf result (kept are others.now (integers numbers.value.keys)) }
{
    numbers.retain(|number| others.agrees(&Scalar::Int(*number), are));
    Index::Integers(numbers)
}

/// Notes a text among others; it tells whether memory was there for it.
fn note_text(alloc: Global, texts: &mut IndexSet<String>, text: &Text) -> bool
    ensures { OnTrue result (texts_of texts.new.keys ≡ with_member (texts_of texts.old.keys) (Str text.now)) }
{
    match String::from_str(alloc, text.as_str()) {
        Ok(copied) => note_string(texts, copied),
        Err(_) => false,
    }
}

fn note_string(texts: &mut IndexSet<String>, string: String) -> bool
    ensures { OnTrue result (texts_of texts.new.keys ≡ with_member (texts_of texts.old.keys) (Str (string_bytes string))) }
{
    match texts.insert(string) {
        Ok(_) => true,
        Err(refused) => {
            let_go(refused);
            false
        }
    }
}

/// An index of one text.
fn first_text(alloc: Global, text: &Text) -> Index
    ensures { IsIndexOf result (Str text.now ∷ []) }
{
    match Box::new(alloc, IndexSet::new(alloc)) {
        Ok(none) => texts_with(alloc, none, text),
        Err(refused) => {
            let_go(refused);
            Index::Searched
        }
    }
}

fn texts_with(alloc: Global, mut texts: Box<IndexSet<String>>, text: &Text) -> Index
    ensures { (after : List Scalar) → GrowsBy (texts_of texts.value.keys) (Str text.now) after → IsIndexOf result after }
{
    if note_text(alloc, &mut texts, text) {
        Index::Texts(texts)
    } else {
        let_go(texts);
        Index::Searched
    }
}
