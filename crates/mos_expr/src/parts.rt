//! What stands between brackets: expressions with commas between them, and the sets of an index.
ghost use Rattle.std.specs.Prelude.{◌≡◌, IfOk, Some};
ghost use Rattle.mos_expr.specs.Operands as spec;

use crate::building::{both, boxed, with_item};
use crate::operand::{Groups, Operand, Parts, WholeIndex, higher, keep, node};
use mos_text::{NoMemory, SourceText, let_go};
use mos_tree::{Expr, Group, Index};
use sqlite_items::Items;
use std::alloc::Global;

/// No expression yet.
pub(crate) fn no_parts(alloc: Global) -> Parts
    ensures { result ≡ spec.no_parts }
{
    Parts {
        height: 0,
        items: Some(Items::new(alloc)),
    }
}

fn append_part(parts: Option<(Items<Expr>, Expr)>) -> Result<Option<Items<Expr>>, NoMemory>
    ensures { IfOk result (λ made. made ≡ spec.map1 (λ p. spec.append_part p.0 p.1) parts) }
{
    match parts {
        None => Ok(None),
        Some((items, expr)) => match with_item(items, expr) {
            Ok(all) => Ok(Some(all)),
            Err(refused) => Err(refused),
        },
    }
}

/// The expressions with one more.
pub(crate) fn parts_with(parts: Parts, operand: Operand) -> Result<Parts, NoMemory>
    ensures { IfOk result (λ made. made ≡ spec.parts_with parts operand) }
{
    let height = parts.height.max(operand.height);
    match append_part(both(parts.items, operand.expr)) {
        Ok(items) => Ok(Parts { height, items }),
        Err(refused) => Err(refused),
    }
}

fn call(name: SourceText, items: Option<Items<Expr>>) -> Option<Expr>
    ensures { result ≡ spec.call name items }
{
    match items {
        None => {
            let_go(name);
            None
        }
        Some(items) => Some(Expr::Call(name, items)),
    }
}

fn call_field(name: SourceText, items: Option<Items<Expr>>, field: SourceText) -> Option<Expr>
    ensures { result ≡ spec.call_field name items field }
{
    match items {
        None => {
            let_go(name);
            let_go(field);
            None
        }
        Some(items) => Some(Expr::CallField(name, items, field)),
    }
}

fn set(items: Option<Items<Expr>>) -> Option<Expr>
    ensures { result ≡ spec.set items }
{
    match items {
        None => None,
        Some(items) => Some(Expr::Set(items)),
    }
}

fn list(items: Option<Items<Expr>>) -> Option<Expr>
    ensures { result ≡ spec.list items }
{
    match items {
        None => None,
        Some(items) => Some(Expr::List(items)),
    }
}

/// A call with its arguments, or a cell with its indexes.
pub(crate) fn call_of(name: SourceText, parts: Parts) -> Operand
    ensures { result ≡ spec.call_of name parts }
{
    node(parts.height, call(name, parts.items))
}

/// A field of what a call gives.
pub(crate) fn call_field_of(name: SourceText, parts: Parts, field: SourceText) -> Operand
    ensures { result ≡ spec.call_field_of name parts field }
{
    node(parts.height, call_field(name, parts.items, field))
}

/// A set of its members.
pub(crate) fn set_of(parts: Parts) -> Operand
    ensures { result ≡ spec.set_of parts }
{
    node(parts.height, set(parts.items))
}

/// A list of its items.
pub(crate) fn list_of(parts: Parts) -> Operand
    ensures { result ≡ spec.list_of parts }
{
    node(parts.height, list(parts.items))
}

/// No set yet.
pub(crate) fn no_groups(alloc: Global) -> Groups
    ensures { result ≡ spec.no_groups }
{
    Groups {
        height: 0,
        items: Some(Items::new(alloc)),
    }
}

fn group_added(
    items: Items<Group<Expr>>,
    names: Items<SourceText>,
    set: Expr,
) -> Result<Option<Items<Group<Expr>>>, NoMemory>
    ensures { IfOk result (λ made. made ≡ Some (spec.append_group names items set)) }
{
    match with_item(items, Group { names, set }) {
        Ok(all) => Ok(Some(all)),
        Err(refused) => Err(refused),
    }
}

fn append_group(
    names: Items<SourceText>,
    parts: Option<(Items<Group<Expr>>, Expr)>,
) -> Result<Option<Items<Group<Expr>>>, NoMemory>
    ensures { IfOk result (λ made. made ≡ spec.map1 (λ p. spec.append_group names p.0 p.1) parts) }
{
    match parts {
        None => {
            let_go(names);
            Ok(None)
        }
        Some((items, set)) => group_added(items, names, set),
    }
}

/// The sets with one more, which its names make a node.
fn groups_with(
    groups: Groups,
    names: Items<SourceText>,
    operand: Operand,
) -> Result<Groups, NoMemory>
    ensures { IfOk result (λ made. made ≡ spec.groups_with groups names operand) }
{
    let high = higher(operand.height);
    let height = groups.height.max(high);
    match append_group(names, both(groups.items, keep(high, operand.expr))) {
        Ok(items) => Ok(Groups { height, items }),
        Err(refused) => Err(refused),
    }
}

/// The sets with one more, unless it is looser than a set may be.
pub(crate) fn set_read(
    groups: Groups,
    names: Items<SourceText>,
    operand: Operand,
) -> Result<Option<Groups>, NoMemory>
    ensures { IfOk result (λ read. read ≡ spec.set_read groups names operand) }
{
    if 5 < operand.level {
        let_go(groups);
        let_go(names);
        let_go(operand);
        return Ok(None);
    }
    match groups_with(groups, names, operand) {
        Ok(groups) => Ok(Some(groups)),
        Err(refused) => Err(refused),
    }
}

fn index_of(groups: Option<Items<Group<Expr>>>) -> Option<Index<Expr>>
    ensures { result ≡ spec.index_of groups }
{
    match groups {
        None => None,
        Some(groups) => Some(Index {
            groups,
            condition: None,
        }),
    }
}

/// The index of these sets, without a condition.
pub(crate) fn whole_index_of(groups: Groups) -> WholeIndex
    ensures { result ≡ spec.whole_index_of groups }
{
    WholeIndex {
        height: groups.height,
        index: index_of(groups.items),
    }
}

fn index_with_condition(
    alloc: Global,
    parts: Option<(Items<Group<Expr>>, Expr)>,
) -> Result<Option<Index<Expr>>, NoMemory>
    ensures { IfOk result
        (λ made. made ≡ spec.map1 (λ p. spec.index_with_condition p.0 p.1) parts) }
{
    match parts {
        None => Ok(None),
        Some((groups, condition)) => match boxed(alloc, condition, groups) {
            Ok((condition, groups)) => Ok(Some(Index {
                groups,
                condition: Some(condition),
            })),
            Err(refused) => Err(refused),
        },
    }
}

/// The index of these sets, with a condition.
pub(crate) fn conditioned_index_of(
    alloc: Global,
    groups: Groups,
    operand: Operand,
) -> Result<WholeIndex, NoMemory>
    ensures { IfOk result (λ made. made ≡ spec.conditioned_index_of groups operand) }
{
    let height = groups.height.max(operand.height);
    match index_with_condition(alloc, both(groups.items, operand.expr)) {
        Ok(index) => Ok(WholeIndex { height, index }),
        Err(refused) => Err(refused),
    }
}

fn count(index: Option<Index<Expr>>) -> Option<Expr>
    ensures { result ≡ spec.count index }
{
    match index {
        None => None,
        Some(index) => Some(Expr::Count(index)),
    }
}

/// The count of an index.
pub(crate) fn counted_of(index: WholeIndex) -> Operand
    ensures { result ≡ spec.counted_of index }
{
    node(index.height, count(index.index))
}
