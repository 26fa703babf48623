//! The types of typed expressions, and conversions.
ghost use Rattle.std.specs.Prelude.{◌≡◌, IfOk};
ghost use Rattle.mos_sorts.specs.Trees as spec;

use crate::{Sort, Typed};
use mos_text::NoMemory;
use mos_tree::UnaryOperator;
use mos_value::MemberType;
use sqlite_items::Boxed;
use std::alloc::Global;

fn sort_of_unary(operator: UnaryOperator) -> Sort
    ensures { result ≡ spec.sort_of_unary operator }
{
    match operator {
        UnaryOperator::Not => Sort::Boolean,
        _ => Sort::Integer,
    }
}

/// The type of an expression, where it has one.
pub fn sort_of(tree: &Typed) -> Option<Sort>
    ensures { result ≡ spec.sort_of tree.now }
{
    match tree {
        Typed::Wrong => None,
        Typed::Integer(_) | Typed::Count(_) => Some(Sort::Integer),
        Typed::Text(_) | Typed::Show(_) => Some(Sort::Text),
        Typed::Truth(_) => Some(Sort::Boolean),
        Typed::Constant(sort, _, _) | Typed::Name(sort, _, _) => Some(*sort),
        Typed::Returned(sort) | Typed::Field(sort, _, _) => Some(*sort),
        Typed::Cell { sort, .. } | Typed::Routine(sort, _, _) => Some(*sort),
        Typed::Library(sort, _, _) | Typed::Set(sort, _) => Some(*sort),
        Typed::List(sort, _) | Typed::If(sort, _, _, _) => Some(*sort),
        Typed::Unary(operator, _) => Some(sort_of_unary(*operator)),
        Typed::Binary(sort, _, _, _) | Typed::Aggregate(sort, _, _, _) => Some(*sort),
        Typed::AsSet(_) => Some(Sort::Set(MemberType::Integer)),
    }
}

/// A range as a set.
pub fn as_set_tree(alloc: Global, tree: Typed) -> Result<Typed, NoMemory>
    ensures { IfOk result (λ x. x ≡ spec.as_set_tree tree) }
{
    match sort_of(&tree) {
        Some(Sort::Range) => Ok(Typed::AsSet(Boxed::new(alloc, tree)?)),
        _ => Ok(tree),
    }
}

/// A value where this type is wanted: a range that is given to a set becomes one.
pub fn given(alloc: Global, wanted: Sort, tree: Typed) -> Result<Typed, NoMemory>
    ensures { IfOk result (λ x. x ≡ spec.as_wanted wanted tree) }
{
    match wanted {
        Sort::Set(_) => as_set_tree(alloc, tree),
        _ => Ok(tree),
    }
}

/// The printed form of a value.
pub fn shown(alloc: Global, tree: Typed) -> Result<Typed, NoMemory>
    ensures { IfOk result (λ x. x ≡ spec.as_printed tree) }
{
    match sort_of(&tree) {
        Some(Sort::Text) => Ok(tree),
        _ => Ok(Typed::Show(Boxed::new(alloc, tree)?)),
    }
}
