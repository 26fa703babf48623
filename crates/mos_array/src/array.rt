//! Arrays and their cells.
ghost use Rattle.std.specs.Prelude.{◌≡◌, ◌<◌, ◌≤◌, ◌++◌, [], ◌∷◌, Some, Ok, IfOk, OnOk, OnErr, IfSome, length, replicate, slice_get};
ghost use Rattle.std.specs.Option.{option_copied};
ghost use Rattle.mos_array.specs.Cells.{part_of, with_part};
ghost use Rattle.mos_array.specs.Scalars.{holds_fields};
ghost use Rattle.mos_array.specs.Rows.{dense_of};
ghost use Rattle.mos_array.specs.Contents as spec;
ghost use Rattle.mos_array.specs.Contents.{Content};
ghost use Rattle.mos_value.specs.Collections.{collection_limit};
ghost use Rattle.mos_value.specs.UpToMemory.{UpToMemory, Becomes};

use crate::indexes::{copies, place_among};
use crate::rows::lists_of;
use crate::{Cell, CellValue};
use mos_text::{FaultKind, NoMemory, Scalar, let_go};
use mos_value::{COLLECTION_LIMIT, Items as Members, ValueFault};
use sqlite_items::Items;
use std::alloc::Global;
use std::marker::Model;

/// An array: cells by their index lists, at most 1,000,000.
#[derive(Drop)]
pub struct Array {
    dynamic: bool,
    default: CellValue,
    indexes: Items<Items<Scalar>>,
    cells: Vec<CellValue>,
}

impl Model for Array {
    ghost use Rattle.std.specs.Prelude.{◌≡◌, ◌≤◌, length};
    ghost use Rattle.mos_array.specs.Contents.{Content};
    ghost use Rattle.mos_value.specs.Collections.{collection_limit};

    ghost Value = { Content };

    ghost view = { λ it. record { dynamic = it.dynamic; default = it.default; indexes = it.indexes; cells = it.cells.items } };

    ghost invariant = { λ it. (length it.indexes ≡ length it.cells.items) × (length it.cells.items ≤ collection_limit) };
}

impl Array {
    /// A new array without cells: a dynamic one, or a dense one before its declaration. A new cell holds
    /// the default. It takes no memory.
    pub fn new(alloc: Global, dynamic: bool, default: CellValue) -> Array
        ensures { result ≡ spec.no_cells dynamic default }
    {
        Array {
            dynamic,
            default,
            indexes: Items::new(alloc),
            cells: Vec::new(alloc),
        }
    }

    /// A dense array with a cell for each index list over these sets, in row order, each with the default;
    /// TOOBIG where that is more than 1,000,000 cells.
    pub fn over(alloc: Global, default: CellValue, sets: &[Members]) -> Result<Array, ValueFault>
        ensures { UpToMemory result (dense_of default sets.now) }
    {
        let indexes = lists_of(alloc, sets)?;
        let cells = copies_of_default(alloc, &default, indexes.len())?;
        Ok(Array {
            dynamic: false,
            default,
            indexes,
            cells,
        })
    }

    /// How many cells there are, at most 1,000,000. It takes no memory.
    pub fn size(&self) -> u32
        ensures size { result ≡ length self.now.cells }
        ensures indexes { result ≡ length self.now.indexes }
        ensures limited { result ≤ collection_limit }
    {
        self.cells.len() as u32
    }

    /// Whether cells are made as they are written.
    pub fn is_dynamic(&self) -> bool
        ensures { result ≡ self.now.dynamic }
    {
        self.dynamic
    }

    /// The place of the cell with this index list.
    fn place(&self, at: &[Scalar]) -> Option<usize>
        ensures place { result ≡ spec.place_of at.now self.now }
        ensures within { IfSome result (λ n. n < length self.now.cells) }
    {
        place_among(at, self.indexes.as_slice())
    }

    /// Whether the cell is there. It takes no memory.
    pub fn has(&self, at: &[Scalar]) -> bool
        ensures { result ≡ spec.has_cell at.now self.now }
    {
        self.place(at).is_some()
    }

    /// What the cell of this place holds, or where there is none what a new one would hold; a dense array
    /// makes none.
    fn cell_or_default(&self, place: Option<usize>) -> Option<&CellValue>
        requires { IfSome place (λ n. n < length self.now.cells) }
        ensures { option_copied result ≡ spec.cell_or_default self.now place }
    {
        match place {
            Some(place) => Some(&self.cells[place]),
            None => {
                if self.dynamic {
                    Some(&self.default)
                } else {
                    None
                }
            }
        }
    }

    /// A copy of what a cell holds. Of a cell that is not there a dynamic array gives the default; a dense
    /// one answers RANGE.
    pub fn get_cell(&self, alloc: Global, at: &[Scalar]) -> Result<CellValue, ValueFault>
        ensures { UpToMemory result (spec.get_cell_of at.now self.now) }
    {
        match self.cell_or_default(self.place(at)) {
            Some(cell) => Ok(cell.copy(alloc)?),
            None => Err(ValueFault::Fault(FaultKind::Range)),
        }
    }

    /// Whether cells are records.
    pub(crate) fn has_fields(&self) -> bool
        ensures { result ≡ holds_fields self.now.default }
    {
        match &self.default {
            CellValue::One(_) => false,
            CellValue::Fields(_) => true,
        }
    }

    /// A copy of the scalar in a cell, or in the field of this number of it.
    pub(crate) fn get_part(
        &self,
        alloc: Global,
        at: &[Scalar],
        field: Option<u32>,
    ) -> Result<Scalar, ValueFault>
        ensures { UpToMemory result (spec.get_part_of at.now field self.now) }
    {
        match self.cell_or_default(self.place(at)) {
            Some(cell) => copy_of_part(alloc, cell, field),
            None => Err(ValueFault::Fault(FaultKind::Range)),
        }
    }

    /// Writes a whole cell. One that is not there is made behind the others in a dynamic array, TOOBIG
    /// above 1,000,000 cells; in a dense one it is RANGE. Where it is refused nothing is changed.
    pub fn put_cell(
        &mut self,
        alloc: Global,
        at: &[Scalar],
        value: CellValue,
    ) -> Result<(), ValueFault>
        ensures { Becomes self.old self.new result (spec.put_cell_of at.now value self.old) }
    {
        match self.place(at) {
            Some(place) => {
                self.cells[place] = value;
                Ok(())
            }
            None => self.put_made(alloc, at, value),
        }
    }

    /// Makes a cell behind the others, where cells are made.
    fn put_made(&mut self, alloc: Global, at: &[Scalar], value: CellValue) -> Result<(), ValueFault>
        ensures { Becomes self.old self.new result (spec.with_made at.now value self.old) }
    {
        if self.dynamic {
            self.put_new(alloc, at, value)
        } else {
            let_go(value);
            Err(ValueFault::Fault(FaultKind::Range))
        }
    }

    /// Puts a cell behind the others.
    fn put_new(&mut self, alloc: Global, at: &[Scalar], value: CellValue) -> Result<(), ValueFault>
        ensures { Becomes self.old self.new result (spec.with_new_cell at.now value self.old) }
    {
        if self.cells.len() < COLLECTION_LIMIT {
            push_both(alloc, &mut self.indexes, &mut self.cells, at, value)?;
            Ok(())
        } else {
            let_go(value);
            Err(ValueFault::Fault(FaultKind::TooBig))
        }
    }

    /// Puts a scalar into a cell, or into the field of this number of it.
    pub(crate) fn put_part(
        &mut self,
        alloc: Global,
        at: &[Scalar],
        field: Option<u32>,
        value: Scalar,
    ) -> Result<(), ValueFault>
        ensures { Becomes self.old self.new result (spec.put_part_of at.now field value self.old) }
    {
        match self.place(at) {
            Some(place) => self.put_part_at(place, field, value),
            None => {
                if self.dynamic {
                    self.put_new_part(alloc, at, field, value)
                } else {
                    let_go(value);
                    Err(ValueFault::Fault(FaultKind::Range))
                }
            }
        }
    }

    /// Puts a scalar into the cell of this place.
    fn put_part_at(
        &mut self,
        place: usize,
        field: Option<u32>,
        value: Scalar,
    ) -> Result<(), ValueFault>
        requires { place < length self.old.cells }
        ensures { Becomes self.old self.new result (spec.with_part_at place field value self.old) }
    {
        if self.cells[place].put_part(field, value) {
            Ok(())
        } else {
            Err(ValueFault::Fault(FaultKind::Range))
        }
    }

    /// Makes a cell behind the others, with the scalar in it.
    fn put_new_part(
        &mut self,
        alloc: Global,
        at: &[Scalar],
        field: Option<u32>,
        value: Scalar,
    ) -> Result<(), ValueFault>
        ensures { Becomes self.old self.new result (spec.made_with at.now (with_part field value self.old.default) self.old) }
    {
        let mut cell = self.default.copy(alloc)?;
        if cell.put_part(field, value) {
            self.put_made(alloc, at, cell)
        } else {
            let_go(cell);
            Err(ValueFault::Fault(FaultKind::Range))
        }
    }

    /// `create`: makes the cell with the default, where it is not there. Where it is refused nothing is
    /// changed.
    pub fn make(&mut self, alloc: Global, at: &[Scalar]) -> Result<(), ValueFault>
        ensures { Becomes self.old self.new result (spec.make_of at.now self.old) }
    {
        if self.has(at) {
            return Ok(());
        }
        let value = self.default.copy(alloc)?;
        self.put_made(alloc, at, value)
    }

    /// `delcell`: takes out that cell alone; it tells whether it was there. It takes no memory.
    pub fn drop_cell(&mut self, at: &[Scalar]) -> bool
        ensures was { result ≡ spec.has_cell at.now self.old }
        ensures without { self.new ≡ spec.without_cell at.now self.old }
    {
        match self.place(at) {
            Some(place) => {
                let_go(self.indexes.remove(place));
                let_go(self.cells.remove(place));
                true
            }
            None => false,
        }
    }

    /// `::`: the cells hold these values, in order; RANGE where there are more or fewer. Where it is
    /// refused nothing is changed.
    pub fn fill(&mut self, values: Vec<CellValue>) -> Result<(), ValueFault>
        ensures { Becomes self.old self.new result (spec.fill_of values.items self.old) }
    {
        if values.len() == self.cells.len() {
            self.cells = values;
            Ok(())
        } else {
            let_go(values);
            Err(ValueFault::Fault(FaultKind::Range))
        }
    }

    /// A copy of the cell at this place, from 0: in a dense array in row order, in a dynamic one in order of
    /// creation.
    pub fn cell_at(&self, alloc: Global, n: u32) -> Result<Cell, NoMemory>
        requires { n < length self.now.cells }
        ensures at { IfOk result (λ cell. slice_get self.now.indexes n ≡ Some cell.at) }
        ensures value { IfOk result (λ cell. slice_get self.now.cells n ≡ Some cell.value) }
    {
        let at = copies(alloc, self.indexes.as_slice()[n as usize].as_slice())?;
        let value = self.cells[n as usize].copy(alloc)?;
        Ok(Cell { at, value })
    }

    /// A copy of the array, or that memory is wanting.
    pub fn copy(&self, alloc: Global) -> Result<Array, NoMemory>
        ensures { IfOk result (λ copy. copy ≡ self.now) }
    {
        let default = self.default.copy(alloc)?;
        let indexes = copies_of_lists(alloc, self.indexes.as_slice())?;
        let cells = copies_of_cells(alloc, self.cells.as_slice())?;
        Ok(Array {
            dynamic: self.dynamic,
            default,
            indexes,
            cells,
        })
    }
}

fn copy_of_part(alloc: Global, cell: &CellValue, field: Option<u32>) -> Result<Scalar, ValueFault>
    ensures { UpToMemory result (spec.or_range (part_of field cell.now)) }
{
    match cell.part(field) {
        Some(scalar) => Ok(scalar.copy(alloc)?),
        None => Err(ValueFault::Fault(FaultKind::Range)),
    }
}

/// Puts an index list and what its cell holds behind the others, or neither.
fn push_both(
    alloc: Global,
    indexes: &mut Items<Items<Scalar>>,
    cells: &mut Vec<CellValue>,
    at: &[Scalar],
    value: CellValue,
) -> Result<(), NoMemory>
    ensures put { OnOk result ((indexes.new ≡ indexes.old ++ at.now ∷ []) × (cells.new.items ≡ cells.old.items ++ value ∷ [])) }
    ensures refused { OnErr result ((indexes.new ≡ indexes.old) × (cells.new.items ≡ cells.old.items)) }
{
    let copied = copies(alloc, at)?;
    indexes.push(copied)?;
    match cells.push(value) {
        Ok(_) => Ok(()),
        Err(refused) => {
            let_go(refused);
            let_go(indexes.pop());
            Err(NoMemory)
        }
    }
}

/// So many copies of the default.
fn copies_of_default(
    alloc: Global,
    default: &CellValue,
    many: usize,
) -> Result<Vec<CellValue>, NoMemory>
    ensures { IfOk result (λ cells. cells.items ≡ replicate many default.now) }
{
    let mut cells = Vec::new(alloc);
    for _cell in 0..many {
        cells.push(default.copy(alloc)?)?;
    }
    Ok(cells)
}

/// A copy of each list.
fn copies_of_lists(alloc: Global, lists: &[Items<Scalar>]) -> Result<Items<Items<Scalar>>, NoMemory>
    ensures { IfOk result (λ copied. copied ≡ lists.now) }
{
    let mut copied = Items::new(alloc);
    for list in lists {
        copied.push(copies(alloc, list.as_slice())?)?;
    }
    Ok(copied)
}

/// A copy of what each cell holds.
fn copies_of_cells(alloc: Global, cells: &[CellValue]) -> Result<Vec<CellValue>, NoMemory>
    ensures { IfOk result (λ copied. copied.items ≡ cells.now) }
{
    let mut copied = Vec::new(alloc);
    for cell in cells {
        copied.push(cell.copy(alloc)?)?;
    }
    Ok(copied)
}
