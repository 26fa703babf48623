//! Parts of cells: a cell's scalar, or a field of it.
ghost use Rattle.std.specs.Prelude.{◌≡◌};
ghost use Rattle.std.specs.Option.{option_copied};
ghost use Rattle.mos_array.specs.Cells.{part_of, with_part, with_field, Puts};
ghost use Rattle.mos_array.specs.declared.cells.CellValue.TheVariants.{Fields};

use crate::CellValue;
use mos_text::{Scalar, let_go};
use sqlite_items::Items;

impl CellValue {
    /// The scalar itself, or the field of this number, if there is one.
    pub(crate) fn part(&self, field: Option<u32>) -> Option<&Scalar>
        ensures { option_copied result ≡ part_of field self.now }
    {
        match self {
            CellValue::One(scalar) => match field {
                None => Some(scalar),
                Some(_) => None,
            },
            CellValue::Fields(fields) => match field {
                Some(number) => fields.get(number as usize),
                None => None,
            },
        }
    }

    /// Puts another scalar there; it tells whether there is such a part.
    pub(crate) fn put_part(&mut self, field: Option<u32>, scalar: Scalar) -> bool
        ensures { Puts self.old self.new (with_part field scalar self.old) result }
    {
        match self {
            CellValue::One(old) => match field {
                None => {
                    *old = scalar;
                    true
                }
                Some(_) => {
                    let_go(scalar);
                    false
                }
            },
            CellValue::Fields(fields) => match field {
                Some(number) => put_field(fields, number as usize, scalar),
                None => {
                    let_go(scalar);
                    false
                }
            },
        }
    }
}

/// Puts another scalar into the field of this number; it tells whether there is one.
fn put_field(fields: &mut Items<Scalar>, number: usize, scalar: Scalar) -> bool
    ensures { Puts (Fields fields.old) (Fields fields.new) (with_field number scalar fields.old) result }
{
    if number < fields.len() {
        fields.set(number, scalar);
        true
    } else {
        let_go(scalar);
        false
    }
}
