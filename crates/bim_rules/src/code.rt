//! The rules on instructions, but for those on the operand stack.
ghost use Rattle.std.specs.Prelude.{◌≡◌, ◌+◌, ◌<◌, ◌^◌};
ghost use Rattle.bim_code.specs.Code.{code_size};
ghost use Rattle.bim_code.specs.Rows as rows;
ghost use Rattle.bim_code.specs.Rules as rules;
ghost use Rattle.bim_rules.specs.Breaches.{first_of};
ghost use Rattle.bim_rules.specs.Code.{has_number, names_in_part, goes_on, is_tick, takes_tick, instruction_breaches, code_breaches, has_main};
ghost use Rattle.bim_rules.specs.Parts.{is_in_part};

use crate::breach::{Breach, Rule, Table, note};
use crate::code_map::CodeMap;
use crate::tables::is_global;
use crate::types::is_constant;
use bim_code::{Image, Instruction};

fn has_number(image: &Image, i: Instruction) -> bool
    ensures { result ≡ has_number image.now i }
{
    match i {
        Instruction::PushBool(n) => n < 2,
        Instruction::PushText(constant) => is_constant(image, constant),
        Instruction::LoadGlobal(slot) | Instruction::StoreGlobal(slot) => is_global(image, slot),
        Instruction::Fault(kind) => 1 <= kind && kind <= 12,
        Instruction::Tick | Instruction::PushInt(_) | Instruction::Swap => true,
        Instruction::Add | Instruction::Subtract | Instruction::Compare(_) => true,
        Instruction::Jump(_) | Instruction::JumpIf(_) | Instruction::JumpNot(_) => true,
        Instruction::Show | Instruction::Write | Instruction::Line | Instruction::End => true,
    }
}

/// The address that an instruction names, if it names one.
pub fn named_address(i: Instruction) -> Option<u32>
    ensures { result ≡ rows.named_address i }
{
    match i {
        Instruction::Jump(address) | Instruction::JumpIf(address) | Instruction::JumpNot(address) =>
            Some(address),
        Instruction::Tick | Instruction::PushInt(_) | Instruction::PushBool(_) => None,
        Instruction::PushText(_) | Instruction::LoadGlobal(_) => None,
        Instruction::StoreGlobal(_) | Instruction::Swap | Instruction::Compare(_) => None,
        Instruction::Add | Instruction::Subtract | Instruction::Show => None,
        Instruction::Write | Instruction::Line | Instruction::End | Instruction::Fault(_) => None,
    }
}

fn leaves_part(i: Instruction) -> bool
    ensures { result ≡ rules.leaves_part i }
{
    match i {
        Instruction::Jump(_) | Instruction::End | Instruction::Fault(_) => true,
        Instruction::JumpIf(_) | Instruction::JumpNot(_) | Instruction::Tick => false,
        Instruction::PushInt(_) | Instruction::PushBool(_) | Instruction::PushText(_) => false,
        Instruction::LoadGlobal(_) | Instruction::StoreGlobal(_) | Instruction::Swap => false,
        Instruction::Add | Instruction::Subtract | Instruction::Compare(_) => false,
        Instruction::Show | Instruction::Write | Instruction::Line => false,
    }
}

fn is_in_part(map: &CodeMap<'_>, at: u32, address: u32) -> bool
    ensures { result ≡ is_in_part map.now at address }
{
    map.is_begun(address) && map.part_of(address) == map.part_of(at)
}

fn names_in_part(map: &CodeMap<'_>, at: u32, named: Option<u32>) -> bool
    ensures { result ≡ names_in_part map.now at named }
{
    match named {
        Some(address) => is_in_part(map, at, address),
        None => true,
    }
}

fn goes_on(map: &CodeMap<'_>, at: u32, i: Instruction) -> bool
    requires { at + rows.width i < 2 ^ 32 }
    ensures { result ≡ goes_on map.now at i }
{
    leaves_part(i) || is_in_part(map, at, at + i.width())
}

fn is_tick(i: Option<Instruction>) -> bool
    ensures { result ≡ is_tick i }
{
    match i {
        Some(Instruction::Tick) => true,
        _ => false,
    }
}

fn takes_tick(map: &CodeMap<'_>, at: u32, named: Option<u32>) -> bool
    ensures { result ≡ takes_tick map.now at named }
{
    match named {
        Some(address) => at < address || is_tick(map.instruction_at(address)),
        None => true,
    }
}

#[tactic(auto, using(crate::proofs::Breaches::first_append), unfolding(crate::specs::Code::instruction_breaches))]
fn first_at(
    found: Option<Breach>,
    map: &CodeMap<'_>,
    image: &Image,
    at: u32,
    i: Instruction,
) -> Option<Breach>
    requires within { at + rows.width i < 2 ^ 32 }
    requires mapped { map.now ≡ image.now }
    ensures { result ≡ first_of found (instruction_breaches image.now at i) }
{
    let named = named_address(i);
    let found = note(found, Rule::Numbers, Table::Code, at, has_number(image, i));
    let found = note(
        found,
        Rule::Addresses,
        Table::Code,
        at,
        names_in_part(map, at, named),
    );
    let found = note(found, Rule::Ends, Table::Code, at, goes_on(map, at, i));
    note(
        found,
        Rule::Ticks,
        Table::Code,
        at,
        takes_tick(map, at, named),
    )
}

/// The breaches by instructions.
#[tactic(auto, using(crate::proofs::Breaches::first_append))]
pub(crate) fn first_in_code(
    found: Option<Breach>,
    map: &CodeMap<'_>,
    image: &Image,
) -> Option<Breach>
    requires within { code_size image.now.code < 2 ^ 32 }
    requires mapped { map.now ≡ image.now }
    ensures { result ≡ first_of found (code_breaches image.now 0 image.now.code) }
{
    let mut found = found;
    let mut at: u32 = 0;
    for i in image.code.as_slice() {
        found = first_at(found, map, image, at, *i);
        at += i.width();
    }
    found
}

/// Whether the main part has an instruction.
pub(crate) fn has_main(map: &CodeMap<'_>) -> bool
    ensures { result ≡ has_main map.now }
{
    map.is_begun(0) && map.part_of(0) == 0
}
