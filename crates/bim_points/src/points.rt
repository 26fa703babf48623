//! The points of code whose stack is empty wherever a point is wanted.
ghost use Rattle.std.specs.Prelude.{◌≡◌, ◌≤◌, ◌<◌, ◌+◌, ◌^◌, false, IfOk, length, replicate};
ghost use Rattle.bim_code.specs.Code.{code_size};
ghost use Rattle.bim_code.specs.Rows as rows;
ghost use Rattle.bim_code.specs.Rules as rules;
ghost use Rattle.bim_points.specs.Marks as marked;
ghost use Rattle.bim_points.specs.Marks.{Marks, with_mark, with_mark_at, with_marks_of};
ghost use Rattle.bim_points.specs.Wanted as wanted;
ghost use Rattle.bim_points.specs.Wanted.{empty_points, is_wanted};

use bim_code::{Instruction, Point};
use bim_rules::named_address;
use mos_text::NoMemory;
use sqlite_items::{Items, at};
use std::alloc::Global;

/// A point where an instruction of the code leads, and behind each that leaves its part, and nowhere else; each tells an
/// empty stack.
pub fn points_of(alloc: Global, code: &[Instruction]) -> Result<Items<Point>, NoMemory>
    requires { code_size code.now < 2 ^ 32 }
    ensures { IfOk result (λ points. points ≡ empty_points (is_wanted code.now) 0 code.now) }
{
    let marks = marks_of(alloc, code)?;
    points_by(alloc, marks.as_slice(), code)
}

fn marks_of(alloc: Global, code: &[Instruction]) -> Result<Vec<bool>, NoMemory>
    requires { code_size code.now < 2 ^ 32 }
    ensures long { IfOk result (λ marks. length marks.items ≡ code_size code.now) }
    ensures tells { IfOk result (λ marks. Marks marks.items (is_wanted code.now)) }
{
    let mut marks = blank(alloc, size_of(code))?;
    mark_all(&mut marks, code);
    Ok(marks)
}

/// The points at the addresses that are marked, which are those where one is wanted.
fn points_by(alloc: Global, marks: &[bool], code: &[Instruction]) -> Result<Items<Point>, NoMemory>
    requires small { code_size code.now < 2 ^ 32 }
    requires long { length marks.now ≡ code_size code.now }
    requires tells { Marks marks.now (is_wanted code.now) }
    ensures { IfOk result (λ points. points ≡ empty_points (is_wanted code.now) 0 code.now) }
{
    points_at(alloc, marks, code)
}

fn size_of(code: &[Instruction]) -> u32
    requires { code_size code.now < 2 ^ 32 }
    ensures { result ≡ code_size code.now }
{
    let mut size: u32 = 0;
    for i in code {
        size += i.width();
    }
    size
}

fn blank(alloc: Global, many: u32) -> Result<Vec<bool>, NoMemory>
    ensures { IfOk result (λ marks. marks.items ≡ replicate many false) }
{
    let mut marks = Vec::new(alloc);
    for _byte in 0..many {
        marks.push(false)?;
    }
    Ok(marks)
}

fn mark(marks: &mut [bool], address: u32)
    ensures { marks.new ≡ with_mark marks.old address }
{
    let place = address as usize;
    if place < marks.len() {
        marks[place] = true;
    }
}

fn mark_at(marks: &mut [bool], address: Option<u32>)
    ensures { marks.new ≡ with_mark_at marks.old address }
{
    if let Some(address) = address {
        mark(marks, address);
    }
}

/// Whether the machine does not go on behind it.
fn leaves_part(i: Instruction) -> bool
    ensures { result ≡ rules.leaves_part i }
{
    match i {
        Instruction::Jump(_) | Instruction::End | Instruction::Fault(_) => true,
        Instruction::JumpIf(_) | Instruction::JumpNot(_) | Instruction::Tick => false,
        Instruction::PushInt(_) | Instruction::PushBool(_) | Instruction::PushText(_) => false,
        Instruction::LoadGlobal(_) | Instruction::StoreGlobal(_) | Instruction::Swap => false,
        Instruction::Add | Instruction::Subtract | Instruction::Compare(_) => false,
        Instruction::Show | Instruction::Write | Instruction::Line => false,
    }
}

/// The address behind an instruction that leaves its part.
fn behind(place: u32, i: &Instruction) -> Option<u32>
    requires { place + rows.width i.now < 2 ^ 32 }
    ensures { result ≡ wanted.behind place i.now }
{
    if leaves_part(*i) {
        Some(place + i.width())
    } else {
        None
    }
}

fn mark_instruction(marks: &mut [bool], place: u32, i: &Instruction)
    requires { place + rows.width i.now < 2 ^ 32 }
    ensures { marks.new ≡ with_marks_of marks.old place i.now }
{
    mark_at(marks, named_address(*i));
    mark_at(marks, behind(place, i));
}

#[tactic(auto, using(crate::proofs::Marked::one_more, crate::proofs::Marked::as_long, crate::proofs::Marked::all_marked, crate::proofs::Marked::none_marked))]
fn mark_all(marks: &mut [bool], code: &[Instruction])
    requires blank { marks.old ≡ replicate (code_size code.now) false }
    requires small { code_size code.now < 2 ^ 32 }
    ensures long { length marks.new ≡ code_size code.now }
    ensures tells { Marks marks.new (is_wanted code.now) }
{
    let mut place: u32 = 0;
    for i in code {
        mark_instruction(marks, place, i);
        place += i.width();
    }
}

#[tactic(auto, using(crate::proofs::Marked::mark_missing))]
fn is_marked(marks: &[bool], address: u32) -> bool
    ensures { result ≡ marked.is_marked marks.now address }
{
    match at(marks, address as usize) {
        Some(mark) => *mark,
        None => false,
    }
}

fn points_at(alloc: Global, marks: &[bool], code: &[Instruction]) -> Result<Items<Point>, NoMemory>
    requires { code_size code.now < 2 ^ 32 }
    ensures { IfOk result (λ points. points ≡ empty_points (marked.is_marked marks.now) 0 code.now) }
{
    let mut points = Items::new(alloc);
    let mut place: u32 = 0;
    for i in code {
        if is_marked(marks, place) {
            points.push(Point {
                address: place,
                stack: Items::new(alloc),
            })?;
        }
        place += i.width();
    }
    Ok(points)
}
