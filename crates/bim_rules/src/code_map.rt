//! Code by its addresses: what begins at each, and to which part each belongs.
ghost use Rattle.std.specs.Prelude.{◌≡◌, ◌++◌, None, IfOk, OnOk, IsPermutation, replicate};
ghost use Rattle.std.specs.List.Sorted.{IsNonDecreasingBy};
ghost use Rattle.bim_rules.specs.ByAddress.{by_address, cells_of, found_at, addresses_of, many_up_to};

use bim_code::{Image, Instruction, Routine};
use mos_text::NoMemory;
use std::alloc::Global;
use std::marker::Model;

/// The addresses of an image's code. What begins at one is found at once, and its part in the time of a
/// logarithm of the number of routines. A contract sees the image.
#[derive(Drop)]
pub struct CodeMap<'a> {
    image: &'a Image,
    cells: Vec<Option<Instruction>>,
    starts: Vec<u32>,
}

impl<'a> Model for CodeMap<'a> {
    ghost use Rattle.bim_code.specs.declared.image.Image.{Image};
    ghost use Rattle.bim_rules.specs.ByAddress.{IsMapOf};

    ghost Value = { Image };

    ghost view = { λ m. m.image.now };

    ghost invariant = { λ m. IsMapOf m.image.now m.cells.items m.starts.items };
}

impl<'a> CodeMap<'a> {
    ghost use Rattle.bim_code.specs.Code.{instruction_at};
    ghost use Rattle.bim_code.specs.Rules.{part_of};
    ghost use Rattle.bim_rules.specs.Parts as parts;

    /// The map of an image's code.
    pub fn of(alloc: Global, image: &'a Image) -> Result<CodeMap<'a>, NoMemory>
        ensures { IfOk result (λ map. map ≡ image.now) }
    {
        let cells = by_address(alloc, image.code.as_slice())?;
        let starts = rising_starts(alloc, image.routines.as_slice())?;
        Ok(CodeMap {
            image,
            cells,
            starts,
        })
    }

    /// The instruction that begins at an address, if one does.
    pub fn instruction_at(&self, address: u32) -> Option<Instruction>
        ensures { result ≡ instruction_at self.now.code address }
    {
        found_at(self.cells.as_slice(), address)
    }

    /// Whether an instruction begins there.
    pub fn is_begun(&self, address: u32) -> bool
        ensures { result ≡ parts.is_begun self.now address }
    {
        self.instruction_at(address).is_some()
    }

    /// How many routines begin there or before: 0 is the main part.
    pub fn part_of(&self, address: u32) -> usize
        ensures { result ≡ part_of self.now.routines address }
    {
        many_up_to(self.starts.as_slice(), address)
    }

    /// Whether a part begins there.
    pub fn is_start(&self, address: u32) -> bool
        ensures { result ≡ parts.is_start self.now address }
    {
        address == 0 || self.part_of(address) != self.part_of(address - 1)
    }
}

fn found_at(cells: &[Option<Instruction>], address: u32) -> Option<Instruction>
    ensures { result ≡ found_at cells.now address }
{
    match cells.get(address as usize) {
        Some(begun) => *begun,
        None => None,
    }
}

/// For each byte of the code the instruction that begins there, if one does.
fn by_address(alloc: Global, code: &[Instruction]) -> Result<Vec<Option<Instruction>>, NoMemory>
    ensures { IfOk result (λ cells. cells.items ≡ by_address code.now) }
{
    let mut cells = Vec::new(alloc);
    for instruction in code {
        push_one(&mut cells, *instruction)?;
    }
    Ok(cells)
}

fn push_one(cells: &mut Vec<Option<Instruction>>, instruction: Instruction) -> Result<(), NoMemory>
    ensures { OnOk result (cells.new.items ≡ cells.old.items ++ cells_of instruction) }
{
    cells.push(Some(instruction))?;
    push_none(cells, instruction.width() - 1)
}

fn push_none(cells: &mut Vec<Option<Instruction>>, many: u32) -> Result<(), NoMemory>
    ensures { OnOk result (cells.new.items ≡ cells.old.items ++ replicate many None) }
{
    for _byte in 0..many {
        cells.push(None)?;
    }
    Ok(())
}

fn starts(alloc: Global, routines: &[Routine]) -> Result<Vec<u32>, NoMemory>
    ensures { IfOk result (λ starts. starts.items ≡ addresses_of routines.now) }
{
    let mut starts = Vec::new(alloc);
    for routine in routines {
        starts.push(routine.address)?;
    }
    Ok(starts)
}

/// The addresses of the routines in rising order.
fn rising_starts(alloc: Global, routines: &[Routine]) -> Result<Vec<u32>, NoMemory>
    ensures rise { IfOk result (λ starts. IsNonDecreasingBy (λ n. n) starts.items) }
    ensures same { IfOk result (λ starts. IsPermutation (addresses_of routines.now) starts.items) }
{
    let mut starts = starts(alloc, routines)?;
    starts.sort_unstable();
    Ok(starts)
}

fn many_up_to(starts: &[u32], address: u32) -> usize
    requires { IsNonDecreasingBy (λ n. n) starts.now }
    ensures { result ≡ many_up_to address starts.now }
{
    starts.partition_point(|start| *start <= address)
}
