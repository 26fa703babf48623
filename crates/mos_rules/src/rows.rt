//! One value of a row: what is wrong with it at its place, and how it is converted.
ghost use Rattle.std.specs.Prelude.{◌≡◌, IfOk, OnOk};
ghost use Rattle.mos_sorts.specs.Kinds.{least};
ghost use Rattle.mos_sorts.specs.Library.{may_be, is_list, is_set};
ghost use Rattle.mos_rules.specs.Rows as spec;

use crate::Expected;
use mos_sorts::fits::{fits, may_fit, sort_of_member};
use mos_sorts::library::note_prefix;
use mos_sorts::trees::{as_set_tree, given, shown, sort_of};
use mos_sorts::worst::note_if;
use mos_sorts::{Sort, Typed};
use mos_text::{Kind, NoMemory};
use mos_value::MemberType;
use sqlite_items::at;
use std::alloc::Global;

/// A range beside a value of this type is made into a set if that is one.
pub fn beside(alloc: Global, other: Option<Sort>, tree: Typed) -> Result<Typed, NoMemory>
    ensures { IfOk result (λ x. x ≡ spec.beside other tree) }
{
    match other {
        Some(Sort::Set(_) | Sort::EmptySet) => as_set_tree(alloc, tree),
        _ => Ok(tree),
    }
}

fn is_list(sort: Sort) -> bool
    ensures { result ≡ is_list sort }
{
    match sort {
        Sort::List(_) | Sort::EmptyList => true,
        _ => false,
    }
}

fn is_set(sort: Sort) -> bool
    ensures { result ≡ is_set sort }
{
    match sort {
        Sort::Range | Sort::Set(_) | Sort::EmptySet => true,
        _ => false,
    }
}

/// Whether `case` on a value of the first type can have a label of the second.
fn can_be_label(value: Sort, label: Sort) -> bool
    ensures { result ≡ spec.can_be_label value label }
{
    match (value, label) {
        (Sort::Array(_), _) => false,
        (Sort::Integer, Sort::Range) => true,
        (Sort::EmptySet, label) => is_set(label),
        (Sort::EmptyList, label) => is_list(label),
        (value, label) => fits(value, label),
    }
}

/// Whether a label has no type, or one that it can have.
fn may_be_label(value: Sort, label: Option<Sort>) -> bool
    ensures { result ≡ may_be (spec.can_be_label value) label }
{
    match label {
        None => true,
        Some(label) => can_be_label(value, label),
    }
}

fn sort_of_index(members: &[MemberType], place: usize) -> Option<Sort>
    ensures { result ≡ spec.wanted_at (spec.Indexes members.now) place }
{
    match at(members, place) {
        Some(member) => Some(sort_of_member(*member)),
        None => None,
    }
}

fn sort_of_formal(sorts: &[Sort], place: usize) -> Option<Sort>
    ensures { result ≡ spec.wanted_at (spec.Formals sorts.now) place }
{
    match at(sorts, place) {
        Some(sort) => Some(*sort),
        None => None,
    }
}

/// The type that is wanted at a place, where one is.
fn wanted_at(expected: Expected<'_>, place: usize) -> Option<Sort>
    ensures { result ≡ spec.wanted_at (spec.expects expected.entry) place }
{
    match expected {
        Expected::Formals(sorts) => sort_of_formal(sorts, place),
        Expected::Indexes(members) => sort_of_index(members, place),
        Expected::Cells(sort) => Some(sort),
        _ => None,
    }
}

fn given_at(alloc: Global, wanted: Option<Sort>, tree: Typed) -> Result<Typed, NoMemory>
    ensures { IfOk result (λ x. x ≡ spec.given_at wanted tree) }
{
    match wanted {
        None => Ok(tree),
        Some(sort) => given(alloc, sort, tree),
    }
}

/// The value at a place, converted for it.
pub fn converted(
    alloc: Global,
    expected: Expected<'_>,
    place: usize,
    tree: Typed,
) -> Result<Typed, NoMemory>
    ensures { IfOk result (λ x. x ≡ spec.converted (spec.expects expected.entry) place tree) }
{
    match expected {
        Expected::Printed => shown(alloc, tree),
        Expected::AsSets => as_set_tree(alloc, tree),
        Expected::Labels(value) => beside(alloc, Some(value), tree),
        other => given_at(alloc, wanted_at(other, place), tree),
    }
}

fn fits_at(wanted: Option<Sort>, tree: &Typed) -> bool
    ensures { result ≡ spec.fits_at wanted tree.now }
{
    match wanted {
        None => true,
        Some(sort) => may_fit(sort, sort_of(tree)),
    }
}

fn note_source(
    alloc: Global,
    worst: &mut Option<Kind>,
    is_source: bool,
    tree: &Typed,
) -> Result<(), NoMemory>
    ensures { OnOk result (worst.new ≡ least worst.old (spec.wrong_source is_source tree.now)) }
{
    if is_source {
        note_prefix(alloc, worst, false, tree)
    } else {
        Ok(())
    }
}

/// Notes what is wrong with the value at a place.
pub fn note_at(
    alloc: Global,
    worst: &mut Option<Kind>,
    expected: Expected<'_>,
    place: usize,
    tree: &Typed,
) -> Result<(), NoMemory>
    ensures { OnOk result
        (worst.new ≡ least worst.old (spec.wrong_at (spec.expects expected.entry) place tree.now)) }
{
    match expected {
        Expected::Files => note_source(alloc, worst, place == 1, tree),
        Expected::Formals(sorts) => {
            note_if(
                worst,
                !fits_at(sort_of_formal(sorts, place), tree),
                Kind::Args,
            );
            Ok(())
        }
        Expected::Indexes(members) => {
            note_if(
                worst,
                !fits_at(sort_of_index(members, place), tree),
                Kind::Args,
            );
            Ok(())
        }
        Expected::Cells(sort) => {
            note_if(worst, !may_fit(sort, sort_of(tree)), Kind::NoType);
            Ok(())
        }
        Expected::Labels(value) => {
            note_if(worst, !may_be_label(value, sort_of(tree)), Kind::NoType);
            Ok(())
        }
        _ => Ok(()),
    }
}
