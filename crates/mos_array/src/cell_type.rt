//! Types of cells, and what a new cell holds.
ghost use Rattle.std.specs.Prelude.{◌≡◌, IfOk, map};
ghost use Rattle.mos_array.specs.Contents.{no_cells};
ghost use Rattle.mos_array.specs.Defaults.{default_scalar, default_cell};
ghost use Rattle.mos_array.specs.Rows.{dense_of};
ghost use Rattle.mos_value.specs.UpToMemory.{UpToMemory};

use crate::{Array, CellValue};
use mos_text::{NoMemory, Scalar, Text};
use mos_value::{Items as Members, ValueFault};
use sqlite_items::Items;
use std::alloc::Global;

/// A type without parts.
#[derive(Clone, Copy, Drop)]
pub enum ScalarType {
    Integer,
    Boolean,
    Str,
    Model,
    Event,
}

/// The type of a cell: one without parts, or a record of fields of such types, in their order.
#[derive(Drop)]
pub enum CellType {
    One(ScalarType),
    Fields(Items<ScalarType>),
}

/// The default of a type without parts. It takes no memory.
pub fn default_scalar(alloc: Global, typ: ScalarType) -> Scalar
    ensures { result ≡ default_scalar typ }
{
    match typ {
        ScalarType::Integer => Scalar::Int(0),
        ScalarType::Boolean => Scalar::Bool(false),
        ScalarType::Str => Scalar::Str(Text::from_string(String::new(alloc))),
        ScalarType::Model => Scalar::Model(0),
        ScalarType::Event => Scalar::Event(0, 0),
    }
}

/// The defaults of fields.
fn default_fields(alloc: Global, types: &[ScalarType]) -> Result<Items<Scalar>, NoMemory>
    ensures { IfOk result (λ fields. fields ≡ map default_scalar types.now) }
{
    let mut fields = Items::new(alloc);
    for typ in types {
        fields.push(default_scalar(alloc, *typ))?;
    }
    Ok(fields)
}

/// What a new cell of this type holds.
pub fn default_cell(alloc: Global, typ: &CellType) -> Result<CellValue, NoMemory>
    ensures { IfOk result (λ value. value ≡ default_cell typ.now) }
{
    match typ {
        CellType::One(typ) => Ok(CellValue::One(default_scalar(alloc, *typ))),
        CellType::Fields(types) => Ok(CellValue::Fields(default_fields(alloc, types.as_slice())?)),
    }
}

impl Array {
    /// An array without cells: a dynamic one, or a dense one before its declaration.
    pub fn empty(alloc: Global, dynamic: bool, typ: &CellType) -> Result<Array, NoMemory>
        ensures { IfOk result (λ array. array ≡ no_cells dynamic (default_cell typ.now)) }
    {
        Ok(Array::new(alloc, dynamic, default_cell(alloc, typ)?))
    }

    /// A dense array with a cell for each index list over the sets, in row order, each with the default;
    /// TOOBIG where that is more than 1,000,000 cells.
    pub fn dense(alloc: Global, typ: &CellType, sets: Vec<Members>) -> Result<Array, ValueFault>
        ensures { UpToMemory result (dense_of (default_cell typ.now) sets.items) }
    {
        Array::over(alloc, default_cell(alloc, typ)?, sets.as_slice())
    }
}
