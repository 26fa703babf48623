//! What a cell holds.
ghost use Rattle.std.specs.Prelude.{◌≡◌, IfOk, Some, MatchOption, None};
ghost use Rattle.mos_array.specs.Cells.{part_of, with_part};

use crate::indexes::copies;
use mos_text::{NoMemory, Scalar};
use sqlite_items::Items;
use std::alloc::Global;

/// What a cell holds: a scalar, or the fields of a record in the order of its type.
#[derive(Drop)]
pub enum CellValue {
    One(Scalar),
    Fields(Items<Scalar>),
}

/// A cell: its index list, and what it holds.
#[derive(Drop)]
pub struct Cell {
    pub at: Items<Scalar>,
    pub value: CellValue,
}

impl CellValue {
    /// A copy of it.
    pub fn copy(&self, alloc: Global) -> Result<CellValue, NoMemory>
        ensures { IfOk result (λ copy. copy ≡ self.now) }
    {
        match self {
            CellValue::One(scalar) => Ok(CellValue::One(scalar.copy(alloc)?)),
            CellValue::Fields(fields) => Ok(CellValue::Fields(copies(alloc, fields.as_slice())?)),
        }
    }
}
