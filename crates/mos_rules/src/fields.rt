//! Fields of records.
ghost use Rattle.std.specs.Prelude.{◌≡◌, None, IfOk, OnOk, option_copied, slice_get};
ghost use Rattle.mos_rules.specs.Results.{Seen, with_tree};
ghost use Rattle.mos_rules.specs.Fields as spec;

use crate::calls::without_type;
use mos_sorts::names::place_of;
use mos_sorts::trees::sort_of;
use mos_sorts::worst::note_unknown;
use mos_sorts::{RecordSort, Sort, Typed};
use mos_text::{Kind, NoMemory, SourceText, let_go};
use sqlite_items::{Boxed, at};
use std::alloc::Global;

/// The record type of this number.
fn record_of(records: &[RecordSort], sort: Sort) -> Option<&RecordSort>
    ensures { option_copied result ≡ spec.record_of records.now sort }
{
    match sort {
        Sort::Record(number) => at(records, number as usize),
        _ => None,
    }
}

/// A field of what has no such field.
fn no_field(
    alloc: Global,
    worst: &mut Option<Kind>,
    field: &SourceText,
    tree: Typed,
) -> Result<Typed, NoMemory>
    ensures tree { IfOk result
        (λ x. x ≡ (spec.field_value None 0 field.now (with_tree tree worst.old)).tree) }
    ensures worst { OnOk result
        (worst.new ≡ (spec.field_value None 0 field.now (with_tree tree worst.old)).worst) }
{
    let_go(tree);
    note_unknown(alloc, worst, field)?;
    Ok(Typed::Wrong)
}

fn field_value(
    alloc: Global,
    worst: &mut Option<Kind>,
    sort: Option<Sort>,
    number: usize,
    field: &SourceText,
    tree: Typed,
) -> Result<Typed, NoMemory>
    ensures tree { IfOk result
        (λ x. x ≡ (spec.field_value sort number field.now (with_tree tree worst.old)).tree) }
    ensures worst { OnOk result
        (worst.new ≡ (spec.field_value sort number field.now (with_tree tree worst.old)).worst) }
{
    let Ok(number) = u32::try_from(number) else {
        return Err(NoMemory);
    };
    match sort {
        Some(sort) => Ok(Typed::Field(sort, Boxed::new(alloc, tree)?, number)),
        None => no_field(alloc, worst, field, tree),
    }
}

fn sort_of_field(sorts: &[Sort], place: usize) -> Option<Sort>
    ensures { result ≡ slice_get sorts.now place }
{
    match at(sorts, place) {
        Some(sort) => Some(*sort),
        None => None,
    }
}

fn field_in(
    alloc: Global,
    worst: &mut Option<Kind>,
    found: Option<&RecordSort>,
    field: &SourceText,
    tree: Typed,
) -> Result<Typed, NoMemory>
    ensures tree { IfOk result
        (λ x. x
        ≡ (spec.field_in (option_copied found.entry) field.now
        (with_tree tree worst.old)).tree) }
    ensures worst { OnOk result
        (worst.new
        ≡ (spec.field_in (option_copied found.entry) field.now
        (with_tree tree worst.old)).worst) }
{
    match found {
        Some(record) => {
            let place = place_of(record.names.as_slice(), field);
            let sort = sort_of_field(record.sorts.as_slice(), place);
            field_value(alloc, worst, sort, place, field, tree)
        }
        None => no_field(alloc, worst, field, tree),
    }
}

fn field_of(
    alloc: Global,
    worst: &mut Option<Kind>,
    records: &[RecordSort],
    sort: Option<Sort>,
    field: &SourceText,
    tree: Typed,
) -> Result<Typed, NoMemory>
    ensures tree { IfOk result
        (λ x. x ≡ (spec.field_of records.now sort field.now (with_tree tree worst.old)).tree) }
    ensures worst { OnOk result
        (worst.new ≡ (spec.field_of records.now sort field.now (with_tree tree worst.old)).worst) }
{
    match sort {
        Some(sort) => field_in(alloc, worst, record_of(records, sort), field, tree),
        None => {
            let_go(tree);
            Ok(without_type(worst))
        }
    }
}

/// What stands behind a name, where a field does.
pub fn with_field(
    alloc: Global,
    worst: &mut Option<Kind>,
    records: &[RecordSort],
    field: Option<&SourceText>,
    tree: Typed,
) -> Result<Typed, NoMemory>
    ensures tree { IfOk result
        (λ x. x
        ≡ (spec.with_field records.now (option_copied field.entry)
        (with_tree tree worst.old)).tree) }
    ensures worst { OnOk result
        (worst.new
        ≡ (spec.with_field records.now (option_copied field.entry)
        (with_tree tree worst.old)).worst) }
{
    match field {
        None => Ok(tree),
        Some(field) => field_of(alloc, worst, records, sort_of(&tree), field, tree),
    }
}
