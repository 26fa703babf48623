//! The rules on parameters, globals, routines and points.
ghost use Rattle.std.specs.Prelude.{◌≡◌, ◌<◌, ◌^◌, [], not, None, length, slice_get, IfOk, OnOk, nat_eq};
ghost use Rattle.std.specs.Option.{option_copied};
ghost use Rattle.std.specs.List.{list_all, list_any};
ghost use Rattle.bim_code.specs.Rules as rules;
ghost use Rattle.bim_rules.specs.Breaches.{first_of};
ghost use Rattle.bim_rules.specs.Tables.{is_global, has_default, has_parameter, is_short, is_of_type, is_new_name, with_found, with_slot, is_parameter, parameter_breaches, global_breaches, has_slot, has_result, has_routine, is_place, routine_breaches, has_operand, point_breaches};
ghost use Rattle.bim_rules.specs.Parts.{is_above};

use crate::breach::{Breach, Rule, Table, note};
use crate::code_map::CodeMap;
use crate::types::{is_constant, is_type};
use bim_code::{Default, Image, ImageType, Operand, Parameter, Point, Routine, Slot};
use indexmap::IndexSet;
use mos_names::Names;
use mos_text::{NoMemory, Text};
use sqlite_items::at;
use std::alloc::Global;

pub(crate) fn is_global(image: &Image, slot: u32) -> bool
    ensures { result ≡ is_global image.now slot }
{
    (slot as usize) < image.globals.len()
}

fn has_default(image: &Image, default: Default) -> bool
    ensures { result ≡ has_default image.now default }
{
    match default {
        Default::Number(_) | Default::Truth(_) => true,
        Default::Constant(constant) => is_constant(image, constant),
    }
}

fn has_parameter(image: &Image, p: Parameter) -> bool
    ensures { result ≡ has_parameter image.now p }
{
    is_constant(image, p.name) && is_global(image, p.slot) && has_default(image, p.default)
}

/// The type of a global slot, where both are in their tables.
pub fn type_of_global(image: &Image, slot: u32) -> Option<&ImageType>
    ensures { option_copied result ≡ rules.type_of_global image.now slot }
{
    match image.globals.get(slot as usize) {
        Some(typ) => image.types.get(*typ as usize),
        None => None,
    }
}

fn is_short(text: Option<&Text>) -> bool
    ensures { result ≡ is_short (option_copied text.entry) }
{
    match text {
        Some(text) => text.as_bytes().len() <= 1000000,
        None => false,
    }
}

fn is_of_type(constants: &[Text], default: Default, typ: Option<&ImageType>) -> bool
    ensures { result ≡ is_of_type constants.now default (option_copied typ.entry) }
{
    match (default, typ) {
        (Default::Number(_), Some(ImageType::Integer)) => true,
        (Default::Truth(_), Some(ImageType::Boolean)) => true,
        (Default::Constant(constant), Some(ImageType::Str)) => {
            is_short(at(constants, constant as usize))
        }
        _ => false,
    }
}

fn is_new_name(names: &Names<'_>, name: Option<&Text>) -> bool
    ensures { result ≡ is_new_name names.now (option_copied name.entry) }
{
    match name {
        Some(name) => !names.has(name),
        None => true,
    }
}

fn note_name<'a>(names: &mut Names<'a>, name: Option<&'a Text>) -> Result<(), NoMemory>
    ensures { OnOk result (names.new ≡ with_found names.old (option_copied name.entry)) }
{
    match name {
        Some(name) => names.note(name),
        None => Ok(()),
    }
}

fn has_slot_number(slots: &IndexSet<u32>, slot: u32) -> bool
    ensures { result ≡ list_any (nat_eq slot) slots.now.keys }
{
    slots.contains(&slot)
}

fn is_parameter(image: &Image, names: &Names<'_>, slots: &IndexSet<u32>, p: Parameter) -> bool
    ensures { result ≡ is_parameter image.now names.now slots.now.keys p }
{
    is_of_type(
        image.constants.as_slice(),
        p.default,
        type_of_global(image, p.slot),
    ) && is_new_name(names, image.constants.get(p.name as usize))
        && !has_slot_number(slots, p.slot)
}

/// The breaches by parameters.
#[tactic(auto, using(crate::proofs::Breaches::first_append))]
pub(crate) fn first_in_parameters(
    alloc: Global,
    found: Option<Breach>,
    image: &Image,
) -> Result<Option<Breach>, NoMemory>
    requires { length image.now.params < 2 ^ 32 }
    ensures { IfOk result
        (λ first. first ≡ first_of found (parameter_breaches image.now 0 [] [] image.now.params)) }
{
    let mut found = found;
    let mut number: u32 = 0;
    let mut names = Names::new(alloc);
    let mut slots: IndexSet<u32> = IndexSet::new(alloc);
    for p in image.params.as_slice() {
        let is_kept = is_parameter(image, &names, &slots, *p);
        found = note(
            found,
            Rule::Numbers,
            Table::Parameters,
            number,
            has_parameter(image, *p),
        );
        found = note(found, Rule::Types, Table::Parameters, number, is_kept);
        note_name(&mut names, image.constants.get(p.name as usize))?;
        slots.insert(p.slot)?;
        number += 1;
    }
    Ok(found)
}

/// The breaches by globals.
#[tactic(auto, using(crate::proofs::Breaches::first_append))]
pub(crate) fn first_in_globals(found: Option<Breach>, image: &Image) -> Option<Breach>
    requires { length image.now.globals < 2 ^ 32 }
    ensures { result ≡ first_of found (global_breaches image.now 0 image.now.globals) }
{
    let mut found = found;
    let mut number: u32 = 0;
    for typ in image.globals.as_slice() {
        found = note(
            found,
            Rule::Numbers,
            Table::Globals,
            number,
            is_type(image, *typ),
        );
        number += 1;
    }
    found
}

fn has_slots(image: &Image, slots: &[Slot]) -> bool
    ensures { result ≡ list_all (has_slot image.now) slots.now }
{
    for slot in slots {
        if !is_type(image, slot.typ) {
            return false;
        }
    }
    true
}

fn has_result(image: &Image, typ: Option<u16>) -> bool
    ensures { result ≡ has_result image.now typ }
{
    match typ {
        Some(typ) => is_type(image, typ),
        None => true,
    }
}

fn has_routine(image: &Image, routine: &Routine) -> bool
    ensures { result ≡ has_routine image.now routine.now }
{
    has_slots(image, routine.slots.as_slice())
        && has_result(image, routine.result)
        && routine.arguments as usize <= routine.slots.len()
}

fn is_above(before: Option<u32>, address: u32) -> bool
    ensures { result ≡ is_above before address }
{
    match before {
        Some(before) => before < address,
        None => true,
    }
}

fn is_place(map: &CodeMap<'_>, before: Option<u32>, address: u32) -> bool
    ensures { result ≡ is_place map.now before address }
{
    map.is_begun(address) && is_above(before, address)
}

/// The breaches by routines.
#[tactic(auto, using(crate::proofs::Breaches::first_append))]
pub(crate) fn first_in_routines(
    found: Option<Breach>,
    map: &CodeMap<'_>,
    image: &Image,
) -> Option<Breach>
    requires few { length image.now.routines < 2 ^ 32 }
    requires mapped { map.now ≡ image.now }
    ensures { result ≡ first_of found (routine_breaches image.now 0 None image.now.routines) }
{
    let mut found = found;
    let mut number: u32 = 0;
    let mut before = None;
    for routine in image.routines.as_slice() {
        let address = routine.address;
        found = note(
            found,
            Rule::Numbers,
            Table::Routines,
            number,
            has_routine(image, routine),
        );
        found = note(
            found,
            Rule::Addresses,
            Table::Code,
            address,
            is_place(map, before, address),
        );
        before = Some(address);
        number += 1;
    }
    found
}

fn has_operands(image: &Image, operands: &[Operand]) -> bool
    ensures { result ≡ list_all (has_operand image.now) operands.now }
{
    for operand in operands {
        if !is_type(image, operand.typ) {
            return false;
        }
    }
    true
}

/// The breaches by points.
#[tactic(auto, using(crate::proofs::Breaches::first_append))]
pub(crate) fn first_in_points(
    found: Option<Breach>,
    map: &CodeMap<'_>,
    image: &Image,
) -> Option<Breach>
    requires few { length image.now.points < 2 ^ 32 }
    requires mapped { map.now ≡ image.now }
    ensures { result ≡ first_of found (point_breaches image.now 0 None image.now.points) }
{
    let mut found = found;
    let mut number: u32 = 0;
    let mut before = None;
    for point in image.points.as_slice() {
        let address = point.address;
        let is_kept = has_operands(image, point.stack.as_slice());
        found = note(found, Rule::Numbers, Table::Points, number, is_kept);
        found = note(
            found,
            Rule::Addresses,
            Table::Code,
            address,
            is_place(map, before, address),
        );
        before = Some(address);
        number += 1;
    }
    found
}
