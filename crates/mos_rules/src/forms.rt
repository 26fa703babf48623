//! Literals of sets and lists, operators, and `if`, by what stands in them.
ghost use Rattle.std.specs.Prelude.{◌≡◌, None, Some, IfOk, OnOk};
ghost use Rattle.mos_rules.specs.Results.{with_tree, without_type};
ghost use Rattle.mos_rules.specs.Forms as spec;
ghost use Rattle.mos_sorts.specs.declared.typed.Typed.TheVariants as t;

use crate::calls::{without_type, without_type_of};
use crate::rows::beside;
use mos_sorts::fits::{as_member, common, is_sort, sort_of_member};
use mos_sorts::operators::{Answer, binary_answer, has_unary};
use mos_sorts::trees::{as_set_tree, shown, sort_of};
use mos_sorts::{Operation, Sort, Typed};
use mos_text::{Kind, NoMemory, let_go};
use mos_tree::{BinaryOperator, UnaryOperator};
use mos_value::MemberType;
use sqlite_items::{Boxed, Items};
use std::alloc::Global;

fn are(sort: Sort, all: &[Typed]) -> bool
    ensures { result ≡ spec.are sort all.now }
{
    all.iter().all(|tree| is_sort(sort, sort_of(tree)))
}

fn shared_by(member: Option<MemberType>, more: &[Typed]) -> Option<MemberType>
    ensures { result ≡ spec.shared_by member more.now }
{
    match member {
        Some(member) if are(sort_of_member(member), more) => Some(member),
        _ => None,
    }
}

fn as_shared(sort: Option<Sort>) -> Option<MemberType>
    ensures { result ≡ spec.as_shared sort }
{
    match sort {
        Some(sort) => as_member(sort),
        None => None,
    }
}

/// The type of members that all of these have.
fn shared(all: &[Typed]) -> Option<MemberType>
    ensures { result ≡ spec.shared all.now }
{
    match all {
        [] => None,
        [first, more @ ..] => shared_by(as_shared(sort_of(first)), more),
    }
}

fn set_sort(all: &[Typed]) -> Option<Sort>
    ensures { result ≡ spec.set_sort all.now }
{
    match all {
        [] => Some(Sort::EmptySet),
        [_, ..] => match shared(all) {
            Some(member) => Some(Sort::Set(member)),
            None => None,
        },
    }
}

/// `{a, b}` or `{}`
pub fn set_of(worst: &mut Option<Kind>, all: Items<Typed>) -> Typed
    ensures tree { result ≡ (spec.set_of all worst.old).tree }
    ensures worst { worst.new ≡ (spec.set_of all worst.old).worst }
{
    match set_sort(all.as_slice()) {
        Some(sort) => Typed::Set(sort, all),
        None => without_type_of(worst, all),
    }
}

fn list_sort(all: &[Typed]) -> Option<Sort>
    ensures { result ≡ spec.list_sort all.now }
{
    match all {
        [] => Some(Sort::EmptyList),
        [_, ..] => match shared(all) {
            Some(member) => Some(Sort::List(member)),
            None => None,
        },
    }
}

/// `[a, b]` or `[]`
pub fn list_of(worst: &mut Option<Kind>, all: Items<Typed>) -> Typed
    ensures tree { result ≡ (spec.list_of all worst.old).tree }
    ensures worst { worst.new ≡ (spec.list_of all worst.old).worst }
{
    match list_sort(all.as_slice()) {
        Some(sort) => Typed::List(sort, all),
        None => without_type_of(worst, all),
    }
}

/// Nothing gives an expression with this part a type.
fn without_type_at(worst: &mut Option<Kind>, part: Typed) -> Typed
    ensures tree { result ≡ (without_type worst.old).tree }
    ensures worst { worst.new ≡ (without_type worst.old).worst }
{
    let_go(part);
    without_type(worst)
}

/// An operator before a value.
pub fn unary(
    alloc: Global,
    worst: &mut Option<Kind>,
    operator: UnaryOperator,
    a: Typed,
) -> Result<Typed, NoMemory>
    ensures tree { IfOk result (λ x. x ≡ (spec.unary operator (with_tree a worst.old)).tree) }
    ensures worst { OnOk result (worst.new ≡ (spec.unary operator (with_tree a worst.old)).worst) }
{
    match sort_of(&a) {
        Some(sort) if has_unary(operator, sort) => {
            Ok(Typed::Unary(operator, Boxed::new(alloc, a)?))
        }
        _ => Ok(without_type_at(worst, a)),
    }
}

fn answer_of(operator: BinaryOperator, a: Option<Sort>, b: Option<Sort>) -> Answer
    ensures { result ≡ spec.answer_of operator a b }
{
    match (a, b) {
        (Some(a), Some(b)) => binary_answer(operator, a, b),
        _ => None,
    }
}

/// An operand beside another of this type, converted as the operation wants it.
pub fn operand(
    alloc: Global,
    operation: Operation,
    other: Option<Sort>,
    tree: Typed,
) -> Result<Typed, NoMemory>
    ensures { IfOk result (λ x. x ≡ spec.operand operation other tree) }
{
    match operation {
        Operation::Unite | Operation::Meet | Operation::Without => as_set_tree(alloc, tree),
        Operation::Join => shown(alloc, tree),
        Operation::Equal | Operation::NotEqual => beside(alloc, other, tree),
        _ => Ok(tree),
    }
}

/// An operation on two values, the first of which has this type.
fn operation_on(
    alloc: Global,
    sort: Sort,
    operation: Operation,
    a: Typed,
    b: Typed,
) -> Result<Typed, NoMemory>
    ensures { IfOk result (λ x. x ≡ (spec.binary_value (Some (operation, sort)) a b None).tree) }
{
    let first = sort_of(&a);
    let a = Boxed::new(alloc, operand(alloc, operation, sort_of(&b), a)?)?;
    let b = Boxed::new(alloc, operand(alloc, operation, first, b)?)?;
    Ok(Typed::Binary(sort, operation, a, b))
}

fn neither(worst: &mut Option<Kind>, a: Typed, b: Typed) -> Typed
    ensures tree { result ≡ (without_type worst.old).tree }
    ensures worst { worst.new ≡ (without_type worst.old).worst }
{
    let_go(a);
    without_type_at(worst, b)
}

/// An operator between two values.
pub fn binary(
    alloc: Global,
    worst: &mut Option<Kind>,
    operator: BinaryOperator,
    a: Typed,
    b: Typed,
) -> Result<Typed, NoMemory>
    ensures tree { IfOk result (λ x. x ≡ (spec.binary operator a (with_tree b worst.old)).tree) }
    ensures worst { OnOk result (worst.new
        ≡ (spec.binary operator a (with_tree b worst.old)).worst) }
{
    match answer_of(operator, sort_of(&a), sort_of(&b)) {
        Some((operation, sort)) => operation_on(alloc, sort, operation, a, b),
        None => Ok(neither(worst, a, b)),
    }
}

fn if_sort(c: Option<Sort>, a: Option<Sort>, b: Option<Sort>) -> Option<Sort>
    ensures { result ≡ spec.if_sort c a b }
{
    match (c, a, b) {
        (Some(Sort::Boolean), Some(a), Some(b)) => common(a, b),
        _ => None,
    }
}

fn if_node(alloc: Global, sort: Sort, c: Typed, a: Typed, b: Typed) -> Result<Typed, NoMemory>
    ensures { IfOk result (λ x. x ≡ (spec.if_value (Some sort) c a b None).tree) }
{
    let first = sort_of(&a);
    let a = beside(alloc, sort_of(&b), a)?;
    let b = beside(alloc, first, b)?;
    if_boxed(alloc, sort, c, a, b)
}

fn if_boxed(alloc: Global, sort: Sort, c: Typed, a: Typed, b: Typed) -> Result<Typed, NoMemory>
    ensures { IfOk result (λ x. x ≡ t.If sort c a b) }
{
    let c = Boxed::new(alloc, c)?;
    let a = Boxed::new(alloc, a)?;
    let b = Boxed::new(alloc, b)?;
    Ok(Typed::If(sort, c, a, b))
}

fn no_choice(worst: &mut Option<Kind>, c: Typed, a: Typed, b: Typed) -> Typed
    ensures tree { result ≡ (without_type worst.old).tree }
    ensures worst { worst.new ≡ (without_type worst.old).worst }
{
    let_go(c);
    neither(worst, a, b)
}

/// `if(c, a, b)`
pub fn chosen(
    alloc: Global,
    worst: &mut Option<Kind>,
    c: Typed,
    a: Typed,
    b: Typed,
) -> Result<Typed, NoMemory>
    ensures tree { IfOk result (λ x. x ≡ (spec.chosen c a (with_tree b worst.old)).tree) }
    ensures worst { OnOk result (worst.new ≡ (spec.chosen c a (with_tree b worst.old)).worst) }
{
    match if_sort(sort_of(&c), sort_of(&a), sort_of(&b)) {
        Some(sort) => if_node(alloc, sort, c, a, b),
        None => Ok(no_choice(worst, c, a, b)),
    }
}
