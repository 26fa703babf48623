//! What loops and aggregates go over, and aggregates over it.
ghost use Rattle.std.specs.Prelude.{◌≡◌, IfOk, OnOk};
ghost use Rattle.mos_sorts.specs.declared.typed.Typed.TheVariants as t;
ghost use Rattle.mos_rules.specs.Results.{with_tree, without_type};
ghost use Rattle.mos_rules.specs.Indexes as spec;

use crate::calls::without_type;
use mos_sorts::fits::{may_fit, walked};
use mos_sorts::operators::aggregate_answer;
use mos_sorts::trees::{as_set_tree, sort_of};
use mos_sorts::worst::note_if;
use mos_sorts::{Sort, Typed};
use mos_text::{Kind, NoMemory, let_go};
use mos_tree::{AggregateOperator, Index};
use sqlite_items::Boxed;
use std::alloc::Global;

/// The type of what an index takes from a value, if one can go over it and knows its type.
pub fn index_sort(sort: Option<Sort>) -> Option<Sort>
    ensures { result ≡ spec.index_sort sort }
{
    match sort {
        Some(sort) => walked(sort),
        None => None,
    }
}

/// Notes a set that no index can go over.
pub fn note_set(worst: &mut Option<Kind>, set: &Typed)
    ensures { worst.new ≡ (spec.walked (with_tree set.now worst.old)).worst }
{
    note_if(worst, index_sort(sort_of(set)).is_none(), Kind::NoType);
}

/// Notes a condition that is no truth.
pub fn note_condition(worst: &mut Option<Kind>, tree: &Typed)
    ensures { worst.new ≡ (spec.condition (with_tree tree.now worst.old)).worst }
{
    note_if(worst, !may_fit(Sort::Boolean, sort_of(tree)), Kind::NoType);
}

fn aggregate_sort(operator: AggregateOperator, body: Option<Sort>) -> Option<Sort>
    ensures { result ≡ spec.aggregate_sort operator body }
{
    match body {
        Some(body) => aggregate_answer(operator, body),
        None => None,
    }
}

fn body_of(alloc: Global, operator: AggregateOperator, body: Typed) -> Result<Typed, NoMemory>
    ensures { IfOk result (λ x. x ≡ spec.body_of operator body) }
{
    match operator {
        AggregateOperator::Union => as_set_tree(alloc, body),
        _ => Ok(body),
    }
}

fn aggregate_node(
    alloc: Global,
    operator: AggregateOperator,
    sort: Sort,
    over: Index<Typed>,
    body: Typed,
) -> Result<Typed, NoMemory>
    ensures { IfOk result (λ x. x ≡ t.Aggregate sort operator over (spec.body_of operator body)) }
{
    let body = body_of(alloc, operator, body)?;
    Ok(Typed::Aggregate(sort, operator, over, Boxed::new(alloc, body)?))
}

fn no_aggregate(worst: &mut Option<Kind>, over: Index<Typed>, body: Typed) -> Typed
    ensures tree { result ≡ (without_type worst.old).tree }
    ensures worst { worst.new ≡ (without_type worst.old).worst }
{
    let_go(over);
    let_go(body);
    without_type(worst)
}

/// An aggregate over an index, with its body.
pub fn aggregate(
    alloc: Global,
    worst: &mut Option<Kind>,
    operator: AggregateOperator,
    over: Index<Typed>,
    body: Typed,
) -> Result<Typed, NoMemory>
    ensures tree { IfOk result (λ x. x
        ≡ (spec.aggregate operator over (with_tree body worst.old)).tree) }
    ensures worst { OnOk result (worst.new
        ≡ (spec.aggregate operator over (with_tree body worst.old)).worst) }
{
    match aggregate_sort(operator, sort_of(&body)) {
        Some(sort) => aggregate_node(alloc, operator, sort, over, body),
        None => Ok(no_aggregate(worst, over, body)),
    }
}
