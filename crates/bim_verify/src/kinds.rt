//! What is known of the entries of a stack.
ghost use Rattle.std.specs.Prelude.{◌≡◌, [], ◌∷◌, OnOk, MatchOption, length, map, reverse, slice_get};
ghost use Rattle.std.specs.Option.{option_copied};
ghost use Rattle.bim_verify.specs.Kinds as spec;
ghost use Rattle.bim_verify.specs.Kinds.{sort_of, sort_by, kind_of, same_all, same_kind, is_no_array, is_integer, is_truth, is_text};

use crate::same::same_sort;
use bim_code::{Form, Image, ImageType, Operand};
use mos_text::NoMemory;
use std::alloc::Global;
use std::marker::Model;

/// A type, as far as instructions tell types apart.
#[derive(Clone, Copy, PartialEq, Debug, Drop)]
pub enum Sort {
    Integer,
    Boolean,
    Str,
    /// Any other type, by its number in the image.
    Other(u16),
}

/// What is known of one entry of a stack.
#[derive(Clone, Copy, PartialEq, Debug, Drop)]
pub struct Kind {
    pub sort: Sort,
    pub form: Form,
}

/// A value of a sort.
pub(crate) fn value(sort: Sort) -> Kind
    ensures { result ≡ spec.value sort }
{
    Kind {
        sort,
        form: Form::Value,
    }
}

/// The sort of the type of this number.
pub(crate) fn sort_of(image: &Image, number: u16) -> Sort
    ensures { result ≡ sort_of image.now number }
{
    match image.types.get(number as usize) {
        Some(ImageType::Integer) => Sort::Integer,
        Some(ImageType::Boolean) => Sort::Boolean,
        Some(ImageType::Str) => Sort::Str,
        _ => Sort::Other(number),
    }
}

/// What a point says of an entry.
pub(crate) fn kind_of(image: &Image, operand: Operand) -> Kind
    ensures { result ≡ kind_of image.now operand }
{
    Kind {
        sort: sort_of(image, operand.typ),
        form: operand.form,
    }
}

fn same_form(a: Form, b: Form) -> bool
    ensures { result ≡ spec.same_form a b }
{
    match (a, b) {
        (Form::Value, Form::Value) | (Form::Place, Form::Place) | (Form::Walk, Form::Walk) => true,
        _ => false,
    }
}

fn same_kind(image: &Image, a: Kind, b: Kind) -> bool
    ensures { result ≡ same_kind image.now a b }
{
    same_form(a.form, b.form) && same_sort(image, a.sort, b.sort)
}

fn is_no_array_type(typ: Option<&ImageType>) -> bool
    ensures { result ≡ spec.is_no_array_type (option_copied typ.entry) }
{
    match typ {
        Some(ImageType::Array { .. }) => false,
        _ => true,
    }
}

/// Whether the sort is no array.
pub(crate) fn is_no_array(image: &Image, sort: Sort) -> bool
    ensures { result ≡ is_no_array image.now sort }
{
    match sort {
        Sort::Other(number) => is_no_array_type(image.types.get(number as usize)),
        Sort::Integer | Sort::Boolean | Sort::Str => true,
    }
}

pub(crate) fn is_integer(sort: Sort) -> bool
    ensures { result ≡ is_integer sort }
{
    match sort {
        Sort::Integer => true,
        Sort::Boolean | Sort::Str | Sort::Other(_) => false,
    }
}

pub(crate) fn is_truth(sort: Sort) -> bool
    ensures { result ≡ is_truth sort }
{
    match sort {
        Sort::Boolean => true,
        Sort::Integer | Sort::Str | Sort::Other(_) => false,
    }
}

pub(crate) fn is_text(sort: Sort) -> bool
    ensures { result ≡ is_text sort }
{
    match sort {
        Sort::Str => true,
        Sort::Integer | Sort::Boolean | Sort::Other(_) => false,
    }
}

/// A stack of kinds. A contract sees a list, the top first.
#[derive(Drop)]
pub(crate) struct Kinds {
    kinds: Vec<Kind>,
}

impl Model for Kinds {
    ghost use Rattle.std.specs.Prelude.{List, reverse};
    ghost use Rattle.bim_verify.specs.declared.kinds.Kind.{Kind};

    ghost Value = { List Kind };

    ghost view = { λ k. reverse k.kinds.items };
}

impl Kinds {
    /// An empty stack; it takes no memory.
    pub(crate) fn new(alloc: Global) -> Kinds
        ensures { result ≡ [] }
    {
        Kinds {
            kinds: Vec::new(alloc),
        }
    }

    /// How high the stack is.
    pub(crate) fn len(&self) -> usize
        ensures { result ≡ length self.now }
    {
        self.kinds.len()
    }

    /// Takes all off.
    pub(crate) fn clear(&mut self)
        ensures { self.new ≡ [] }
    {
        self.kinds.clear();
    }

    /// Puts a kind on top.
    #[tactic(auto, using(crate::proofs::Reversed::reverse_push))]
    pub(crate) fn push(&mut self, kind: Kind) -> Result<(), NoMemory>
        ensures { OnOk result (self.new ≡ kind ∷ self.old) }
    {
        self.kinds.push(kind)?;
        Ok(())
    }

    /// Takes the top off.
    #[tactic(auto, using(crate::proofs::Reversed::reverse_push))]
    pub(crate) fn pop(&mut self) -> Option<Kind>
        ensures { MatchOption result ((self.old ≡ []) × (self.new ≡ []))
            (λ kind. self.old ≡ kind ∷ self.new) }
    {
        self.kinds.pop()
    }

    /// Whether these are the entries of a point, whose top stands last.
    #[tactic(auto, using(crate::proofs::SameLists::same_reversed))]
    pub(crate) fn is(&self, image: &Image, operands: &[Operand]) -> bool
        ensures { result ≡ same_all (same_kind image.now) (reverse (map (kind_of image.now) operands.now)) self.now }
    {
        same_entries(image, operands, self.kinds.as_slice())
    }

    /// Takes all off, and puts the entries of a point on, whose top stands last.
    pub(crate) fn load(&mut self, image: &Image, operands: &[Operand]) -> Result<(), NoMemory>
        ensures { OnOk result (self.new ≡ reverse (map (kind_of image.now) operands.now)) }
    {
        self.clear();
        for operand in operands {
            self.push(kind_of(image, *operand))?;
        }
        Ok(())
    }
}

fn same_entries(image: &Image, operands: &[Operand], kinds: &[Kind]) -> bool
    ensures { result ≡ same_all (same_kind image.now) (map (kind_of image.now) operands.now) kinds.now }
{
    let mut rest = kinds;
    for operand in operands {
        match rest.split_first() {
            Some((kind, more)) => {
                if !same_kind(image, kind_of(image, *operand), *kind) {
                    return false;
                }
                rest = more;
            }
            None => return false,
        }
    }
    rest.is_empty()
}
