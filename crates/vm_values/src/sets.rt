//! Operators on sets and lists, and those that are written out.
ghost use Rattle.std.specs.Prelude.{◌≡◌, [], ◌∷◌, IfOk};
ghost use Rattle.mos_value.specs.Lists.{chain_of};
ghost use Rattle.mos_value.specs.Sets.{union_of, minus_of};
ghost use Rattle.mos_value.specs.UpToMemory.{UpToMemory};
ghost use Rattle.vm_lib.specs.Operations as spec;
ghost use Rattle.vm_values.specs.Given.{result_of};

use crate::answer::{Answer, list, set};
use crate::arguments::scalars_of;
use crate::value::Value;
use mos_text::NoMemory;
use mos_value::{
    Items, MemberType, ValueFault, add_to_list, add_to_set, inter_of, range_set, set_of,
    take_from_set,
};
use std::alloc::Global;

/// The union of two sets; the first is added to.
pub fn unite(alloc: Global, left: Value, right: &Value) -> Result<Answer, NoMemory>
    ensures { IfOk result
        (λ answer. result_of answer ≡ spec.done spec.unite (left ∷ right.now ∷ [])) }
{
    match left.into_set() {
        Some((member, members)) => match right.as_set() {
            Some((_, others)) => set(member, united(alloc, members, others)),
            None => Ok(Answer::Sticks),
        },
        None => Ok(Answer::Sticks),
    }
}

fn united(alloc: Global, mut members: Items, others: &Items) -> Result<Items, ValueFault>
    ensures { UpToMemory result (union_of members others.now) }
{
    add_to_set(alloc, &mut members, others)?;
    Ok(members)
}

/// The members of the first set that are in the second.
pub fn meet(alloc: Global, left: &Value, right: &Value) -> Result<Answer, NoMemory>
    ensures { IfOk result
        (λ answer. result_of answer ≡ spec.done spec.meet (left.now ∷ right.now ∷ [])) }
{
    match left.as_set() {
        Some((member, members)) => match right.as_set() {
            Some((_, others)) => set(member, inter_of(alloc, members, others)),
            None => Ok(Answer::Sticks),
        },
        None => Ok(Answer::Sticks),
    }
}

/// The first set without the members of the second, which are taken out of it.
pub fn without(left: Value, right: &Value) -> Result<Answer, NoMemory>
    ensures { IfOk result
        (λ answer. result_of answer ≡ spec.done spec.without (left ∷ right.now ∷ [])) }
{
    match left.into_set() {
        Some((member, members)) => match right.as_set() {
            Some((_, others)) => set(member, left_over(members, others)),
            None => Ok(Answer::Sticks),
        },
        None => Ok(Answer::Sticks),
    }
}

fn left_over(mut members: Items, others: &Items) -> Result<Items, ValueFault>
    ensures { UpToMemory result (minus_of members others.now) }
{
    take_from_set(&mut members, others)?;
    Ok(members)
}

/// Two lists, one behind the other; the first is added to.
pub fn chain(alloc: Global, left: Value, right: &Value) -> Result<Answer, NoMemory>
    ensures { IfOk result
        (λ answer. result_of answer ≡ spec.done spec.chain (left ∷ right.now ∷ [])) }
{
    match left.into_list() {
        Some((member, items)) => match right.as_list() {
            Some((_, others)) => list(member, chained(alloc, items, others)),
            None => Ok(Answer::Sticks),
        },
        None => Ok(Answer::Sticks),
    }
}

fn chained(alloc: Global, mut items: Items, others: &Items) -> Result<Items, ValueFault>
    ensures { UpToMemory result (chain_of items others.now) }
{
    add_to_list(alloc, &mut items, others)?;
    Ok(items)
}

/// The set of the integers of a range.
pub fn as_set(alloc: Global, value: &Value) -> Result<Answer, NoMemory>
    ensures { IfOk result (λ answer. result_of answer ≡ spec.done spec.as_set (value.now ∷ [])) }
{
    match value.as_range() {
        Some((first, last)) => set(MemberType::Integer, range_set(alloc, first, last)),
        None => Ok(Answer::Sticks),
    }
}

/// The set of these members, each once.
pub fn make_set(alloc: Global, member: MemberType, all: &[Value]) -> Result<Answer, NoMemory>
    ensures { IfOk result (λ answer. result_of answer ≡ spec.done (spec.make_set member) all.now) }
{
    match scalars_of(alloc, all)? {
        Some(members) => set(member, set_of(alloc, &members)),
        None => Ok(Answer::Sticks),
    }
}

/// The list of these items.
pub fn make_list(alloc: Global, member: MemberType, all: &[Value]) -> Result<Answer, NoMemory>
    ensures { IfOk result (λ answer. result_of answer ≡ spec.done (spec.make_list member) all.now) }
{
    match scalars_of(alloc, all)? {
        Some(items) => Ok(Answer::Gives(Value::list(member, items))),
        None => Ok(Answer::Sticks),
    }
}
