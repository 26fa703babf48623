//! What each instruction makes of the stack that is known before it.
ghost use Rattle.std.specs.Prelude.{◌≡◌, List, ◌∷◌, IfOk};
ghost use Rattle.bim_verify.specs.declared.kinds.Kind.{Kind};
ghost use Rattle.bim_verify.specs.declared.kinds.Sort.{Sort};
ghost use Rattle.bim_verify.specs.declared.kinds.Sort.TheVariants.{Integer, Boolean, Str};
ghost use Rattle.bim_verify.specs.Kinds.{value};
ghost use Rattle.bim_verify.specs.Shapes as spec;
ghost use Rattle.bim_verify.specs.Shapes.{Shape, Flows, Splits, Closes, when, wanted, on_kind, on_value, on_integer, on_truth, on_text, shape_of};
ghost use Rattle.bim_code.specs.declared.instruction.Instruction.TheVariants as row;

use crate::kinds::{Kind, Kinds, Sort, is_integer, is_no_array, is_text, is_truth, sort_of, value};
use crate::same::same_sort;
use bim_code::{Comparison, Form, Image, Instruction};
use bim_rules::Rule;
use mos_text::NoMemory;

/// What comes of an instruction, beside the stack that it leaves.
#[derive(Clone, Copy, PartialEq, Debug, Drop)]
pub enum Outcome {
    /// This rule is broken.
    Breaks(Rule),
    /// The next instruction finds the stack.
    Flows,
    /// The one at the named address does.
    Goes,
    /// Either may.
    Splits,
    /// None does.
    Closes,
}

/// Whether the stack before an instruction is known.
#[derive(Clone, Copy, PartialEq, Debug, Drop)]
pub enum Told {
    Stack,
    /// No instruction leads there.
    Nothing,
    /// A rule is broken before it.
    Unsaid,
}

fn when(holds: bool, outcome: Outcome) -> Outcome
    ensures { (stack : List Kind) → shape_of result stack ≡ when holds (shape_of outcome stack) }
{
    if holds {
        outcome
    } else {
        Outcome::Breaks(Rule::Operands)
    }
}

fn pop_kind(stack: &mut Kinds) -> Option<Kind>
    ensures { (go : Kind → List Kind → Shape)
        → on_kind stack.old go ≡ wanted result (λ kind. go kind stack.new) }
{
    stack.pop()
}

fn pop_value(stack: &mut Kinds) -> Option<Sort>
    ensures { (go : Sort → List Kind → Shape)
        → on_value stack.old go ≡ wanted result (λ sort. go sort stack.new) }
{
    match pop_kind(stack) {
        Some(kind) => match kind.form {
            Form::Value => Some(kind.sort),
            Form::Place | Form::Walk => None,
        },
        None => None,
    }
}

fn pop_integer(stack: &mut Kinds) -> bool
    ensures { (go : List Kind → Shape) → on_integer stack.old go ≡ when result (go stack.new) }
{
    match pop_value(stack) {
        Some(sort) => is_integer(sort),
        None => false,
    }
}

fn pop_truth(stack: &mut Kinds) -> bool
    ensures { (go : List Kind → Shape) → on_truth stack.old go ≡ when result (go stack.new) }
{
    match pop_value(stack) {
        Some(sort) => is_truth(sort),
        None => false,
    }
}

fn pop_text(stack: &mut Kinds) -> bool
    ensures { (go : List Kind → Shape) → on_text stack.old go ≡ when result (go stack.new) }
{
    match pop_value(stack) {
        Some(sort) => is_text(sort),
        None => false,
    }
}

fn push_value(stack: &mut Kinds, sort: Sort) -> Result<Outcome, NoMemory>
    ensures { IfOk result (λ o. Flows (value sort ∷ stack.old) ≡ shape_of o stack.new) }
{
    stack.push(value(sort))?;
    Ok(Outcome::Flows)
}

fn load_global(image: &Image, slot: u32, stack: &mut Kinds) -> Result<Outcome, NoMemory>
    ensures { IfOk result (λ o. spec.shape image.now (row.LoadGlobal slot) stack.old ≡ shape_of o stack.new) }
{
    match image.globals.get(slot as usize) {
        Some(typ) => push_value(stack, sort_of(image, *typ)),
        None => Ok(Outcome::Breaks(Rule::Numbers)),
    }
}

fn store(image: &Image, sort: Sort, stack: &mut Kinds) -> Outcome
    ensures { spec.stores image.now sort stack.old ≡ shape_of result stack.new }
{
    match pop_value(stack) {
        Some(top) => when(same_sort(image, top, sort), Outcome::Flows),
        None => Outcome::Breaks(Rule::Operands),
    }
}

fn store_global(image: &Image, slot: u32, stack: &mut Kinds) -> Outcome
    ensures { spec.shape image.now (row.StoreGlobal slot) stack.old ≡ shape_of result stack.new }
{
    match image.globals.get(slot as usize) {
        Some(typ) => store(image, sort_of(image, *typ), stack),
        None => Outcome::Breaks(Rule::Numbers),
    }
}

fn swap_under(top: Kind, stack: &mut Kinds) -> Result<Outcome, NoMemory>
    ensures { IfOk result (λ o. spec.swaps top stack.old ≡ shape_of o stack.new) }
{
    match pop_kind(stack) {
        Some(below) => {
            stack.push(top)?;
            stack.push(below)?;
            Ok(Outcome::Flows)
        }
        None => Ok(Outcome::Breaks(Rule::Operands)),
    }
}

fn swap(stack: &mut Kinds) -> Result<Outcome, NoMemory>
    ensures { IfOk result (λ o. on_kind stack.old spec.swaps ≡ shape_of o stack.new) }
{
    match pop_kind(stack) {
        Some(top) => swap_under(top, stack),
        None => Ok(Outcome::Breaks(Rule::Operands)),
    }
}

fn between_integers(stack: &mut Kinds) -> Result<Outcome, NoMemory>
    ensures { IfOk result (λ o. spec.joins_integers stack.old ≡ shape_of o stack.new) }
{
    if pop_integer(stack) && pop_integer(stack) {
        push_value(stack, Sort::Integer)
    } else {
        Ok(Outcome::Breaks(Rule::Operands))
    }
}

fn are_ordered(a: Sort, b: Sort) -> bool
    ensures { result ≡ spec.are_ordered a b }
{
    match (a, b) {
        (Sort::Integer, Sort::Integer) | (Sort::Str, Sort::Str) => true,
        _ => false,
    }
}

fn are_alike(image: &Image, a: Sort, b: Sort) -> bool
    ensures { result ≡ spec.are_alike image.now a b }
{
    is_no_array(image, a) && same_sort(image, a, b)
}

fn can_compare(image: &Image, comparison: Comparison, a: Sort, b: Sort) -> bool
    ensures { result ≡ spec.can_compare image.now comparison a b }
{
    match comparison {
        Comparison::Equal | Comparison::NotEqual => are_alike(image, a, b),
        Comparison::Less | Comparison::AtMost => are_ordered(a, b),
        Comparison::Greater | Comparison::AtLeast => are_ordered(a, b),
    }
}

fn compare_with(
    image: &Image,
    comparison: Comparison,
    b: Sort,
    stack: &mut Kinds,
) -> Result<Outcome, NoMemory>
    ensures { IfOk result (λ o. spec.compares image.now comparison b stack.old ≡ shape_of o stack.new) }
{
    match pop_value(stack) {
        Some(a) => {
            if can_compare(image, comparison, a, b) {
                push_value(stack, Sort::Boolean)
            } else {
                Ok(Outcome::Breaks(Rule::Operands))
            }
        }
        None => Ok(Outcome::Breaks(Rule::Operands)),
    }
}

fn compare(image: &Image, comparison: Comparison, stack: &mut Kinds) -> Result<Outcome, NoMemory>
    ensures { IfOk result
        (λ o. on_value stack.old (spec.compares image.now comparison) ≡ shape_of o stack.new) }
{
    match pop_value(stack) {
        Some(b) => compare_with(image, comparison, b, stack),
        None => Ok(Outcome::Breaks(Rule::Operands)),
    }
}

fn show(stack: &mut Kinds) -> Result<Outcome, NoMemory>
    ensures { IfOk result (λ o. spec.shows stack.old ≡ shape_of o stack.new) }
{
    match pop_value(stack) {
        Some(_) => push_value(stack, Sort::Str),
        None => Ok(Outcome::Breaks(Rule::Operands)),
    }
}

/// What an instruction makes of the stack, which it changes so.
pub(crate) fn shape(image: &Image, i: Instruction, stack: &mut Kinds) -> Result<Outcome, NoMemory>
    ensures { IfOk result (λ o. spec.shape image.now i stack.old ≡ shape_of o stack.new) }
{
    match i {
        Instruction::Tick => Ok(Outcome::Flows),
        Instruction::PushInt(_) => push_value(stack, Sort::Integer),
        Instruction::PushBool(_) => push_value(stack, Sort::Boolean),
        Instruction::PushText(_) => push_value(stack, Sort::Str),
        Instruction::LoadGlobal(slot) => load_global(image, slot, stack),
        Instruction::StoreGlobal(slot) => Ok(store_global(image, slot, stack)),
        Instruction::Swap => swap(stack),
        Instruction::Add | Instruction::Subtract => between_integers(stack),
        Instruction::Compare(comparison) => compare(image, comparison, stack),
        Instruction::Jump(_) => Ok(Outcome::Goes),
        Instruction::JumpIf(_) | Instruction::JumpNot(_) => Ok(split(stack)),
        Instruction::Show => show(stack),
        Instruction::Write => Ok(take_text(stack)),
        Instruction::Line => Ok(take_truth(stack)),
        Instruction::End => Ok(end(stack)),
        Instruction::Fault(_) => Ok(Outcome::Closes),
    }
}

fn split(stack: &mut Kinds) -> Outcome
    ensures { on_truth stack.old (λ rest. Splits rest rest) ≡ shape_of result stack.new }
{
    when(pop_truth(stack), Outcome::Splits)
}

fn take_text(stack: &mut Kinds) -> Outcome
    ensures { on_text stack.old Flows ≡ shape_of result stack.new }
{
    when(pop_text(stack), Outcome::Flows)
}

fn take_truth(stack: &mut Kinds) -> Outcome
    ensures { on_truth stack.old Flows ≡ shape_of result stack.new }
{
    when(pop_truth(stack), Outcome::Flows)
}

fn end(stack: &mut Kinds) -> Outcome
    ensures { on_integer stack.old (λ rest. Closes) ≡ shape_of result stack.new }
{
    when(pop_integer(stack), Outcome::Closes)
}
