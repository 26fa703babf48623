//! Assignments to cells: indexes and a value in one piece.
ghost use Rattle.std.specs.Prelude.{◌≡◌, IfOk};
ghost use Rattle.mos_form.specs.Cells as spec;

use crate::expressions::{assigned, refused};
use mos_scan::Word;
use mos_text::{NoMemory, SourceText, let_go};
use mos_tree::{Assignment, Expr, Form, PieceKind, Reference};
use mos_typing::indexes_and_value;
use sqlite_items::Items;
use std::alloc::Global;

/// A cell, or a field of the record in it.
fn cell(name: SourceText, indexes: Items<Expr>, field: Option<SourceText>) -> Reference
    ensures { result ≡ spec.cell name indexes field }
{
    match field {
        None => Reference::Cell(name, indexes),
        Some(field) => Reference::CellField(name, indexes, field),
    }
}

/// The assignment of a value to a cell with these indexes, or to a field there.
pub(crate) fn cell_assignment(
    alloc: Global,
    name: SourceText,
    indexes: &[Word],
    field: Option<SourceText>,
    operator: Assignment,
    value: &[Word],
) -> Result<Form, NoMemory>
    ensures { IfOk result (spec.TellsCell name field operator indexes.now value.now) }
{
    match indexes_and_value(alloc, indexes, value) {
        Ok((indexes, value)) => Ok(assigned(cell(name, indexes, field), operator, value)),
        Err(fault) => {
            let_go(name);
            let_go(field);
            refused(fault, PieceKind::Simple)
        }
    }
}
