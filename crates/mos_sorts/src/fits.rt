//! Which types are one, and which value fits where a type is wanted.
ghost use Rattle.std.specs.Prelude.{◌≡◌};
ghost use Rattle.mos_sorts.specs.Sorts as spec;

use crate::Sort;
use mos_value::MemberType;

pub fn same_member(a: MemberType, b: MemberType) -> bool
    ensures { result ≡ spec.same_member a b }
{
    matches!(
        (a, b),
        (MemberType::Integer, MemberType::Integer)
            | (MemberType::Boolean, MemberType::Boolean)
            | (MemberType::Str, MemberType::Str)
    )
}

/// Whether the types are one.
pub fn same_sort(a: Sort, b: Sort) -> bool
    ensures { result ≡ spec.same_sort a b }
{
    match (a, b) {
        (Sort::Integer, Sort::Integer) => true,
        (Sort::Boolean, Sort::Boolean) => true,
        (Sort::Text, Sort::Text) => true,
        (Sort::Model, Sort::Model) => true,
        (Sort::Event, Sort::Event) => true,
        (Sort::Range, Sort::Range) => true,
        (Sort::Set(a), Sort::Set(b)) => same_member(a, b),
        (Sort::List(a), Sort::List(b)) => same_member(a, b),
        (Sort::EmptySet, Sort::EmptySet) => true,
        (Sort::EmptyList, Sort::EmptyList) => true,
        (Sort::Array(a), Sort::Array(b)) => a == b,
        (Sort::Record(a), Sort::Record(b)) => a == b,
        _ => false,
    }
}

/// The type of a member.
pub fn sort_of_member(member: MemberType) -> Sort
    ensures { result ≡ spec.sort_of_member member }
{
    match member {
        MemberType::Integer => Sort::Integer,
        MemberType::Boolean => Sort::Boolean,
        MemberType::Str => Sort::Text,
    }
}

/// The type as that of members, where members can have it.
pub fn as_member(sort: Sort) -> Option<MemberType>
    ensures { result ≡ spec.as_member sort }
{
    match sort {
        Sort::Integer => Some(MemberType::Integer),
        Sort::Boolean => Some(MemberType::Boolean),
        Sort::Text => Some(MemberType::Str),
        _ => None,
    }
}

/// A range counts as a set of integer.
pub fn as_set(sort: Sort) -> Option<Sort>
    ensures { result ≡ spec.as_set sort }
{
    match sort {
        Sort::Range => Some(Sort::Set(MemberType::Integer)),
        Sort::Set(member) => Some(Sort::Set(member)),
        Sort::EmptySet => Some(Sort::EmptySet),
        _ => None,
    }
}

fn set_of_both(a: Option<Sort>, b: Option<Sort>) -> Option<Sort>
    ensures { result ≡ spec.set_of_both a b }
{
    match (a, b) {
        (Some(Sort::Set(a)), Some(Sort::Set(b))) if same_member(a, b) => Some(Sort::Set(a)),
        (Some(Sort::Set(a)), Some(Sort::EmptySet)) => Some(Sort::Set(a)),
        (Some(Sort::EmptySet), Some(Sort::Set(b))) => Some(Sort::Set(b)),
        (Some(Sort::EmptySet), Some(Sort::EmptySet)) => Some(Sort::EmptySet),
        _ => None,
    }
}

/// The type of two sets or ranges together.
pub fn common_set(a: Sort, b: Sort) -> Option<Sort>
    ensures { result ≡ spec.common_set a b }
{
    set_of_both(as_set(a), as_set(b))
}

/// The type of two lists together.
pub fn common_list(a: Sort, b: Sort) -> Option<Sort>
    ensures { result ≡ spec.common_list a b }
{
    match (a, b) {
        (Sort::List(a), Sort::List(b)) if same_member(a, b) => Some(Sort::List(a)),
        (Sort::List(a), Sort::EmptyList) => Some(Sort::List(a)),
        (Sort::EmptyList, Sort::List(b)) => Some(Sort::List(b)),
        (Sort::EmptyList, Sort::EmptyList) => Some(Sort::EmptyList),
        _ => None,
    }
}

/// The type of two values of one type.
pub fn common(a: Sort, b: Sort) -> Option<Sort>
    ensures { result ≡ spec.common a b }
{
    if same_sort(a, b) {
        return Some(a);
    }
    match common_set(a, b) {
        Some(sort) => Some(sort),
        None => common_list(a, b),
    }
}

/// Whether a value of the second type fits where the first is wanted.
pub fn fits(wanted: Sort, given: Sort) -> bool
    ensures { result ≡ spec.fits wanted given }
{
    match (wanted, given) {
        (Sort::Set(member), Sort::Range) => same_member(member, MemberType::Integer),
        (Sort::Set(_), Sort::EmptySet) => true,
        (Sort::List(_), Sort::EmptyList) => true,
        _ => same_sort(wanted, given),
    }
}

/// The type of what an index takes from a set, range or list.
pub fn walked(sort: Sort) -> Option<Sort>
    ensures { result ≡ spec.sort_of_index sort }
{
    match sort {
        Sort::Range => Some(Sort::Integer),
        Sort::Set(member) | Sort::List(member) => Some(sort_of_member(member)),
        _ => None,
    }
}

/// The type of an array's index over a set or range.
pub fn index_over(sort: Sort) -> Option<MemberType>
    ensures { result ≡ spec.index_over sort }
{
    match sort {
        Sort::Range => Some(MemberType::Integer),
        Sort::Set(member) => Some(member),
        _ => None,
    }
}

/// Whether a value of this type has no parts; a record is none of these.
pub fn is_scalar(sort: Sort) -> bool
    ensures { result ≡ spec.is_scalar sort }
{
    match sort {
        Sort::Integer | Sort::Boolean | Sort::Text | Sort::Model | Sort::Event => true,
        _ => false,
    }
}

/// Whether it is the type of an array.
pub fn is_array(sort: Sort) -> bool
    ensures { result ≡ spec.is_array sort }
{
    match sort {
        Sort::Array(_) => true,
        _ => false,
    }
}

/// Whether there is a type, and it is this one.
pub fn is_sort(wanted: Sort, given: Option<Sort>) -> bool
    ensures { result ≡ spec.is_sort wanted given }
{
    match given {
        Some(given) => same_sort(wanted, given),
        None => false,
    }
}

/// Whether a value fits, or has no type.
pub fn may_fit(wanted: Sort, given: Option<Sort>) -> bool
    ensures { result ≡ spec.may_fit wanted given }
{
    match given {
        Some(given) => fits(wanted, given),
        None => true,
    }
}
