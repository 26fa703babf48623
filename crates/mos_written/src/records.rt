//! Record types as they are written, field group by field group.
ghost use Rattle.std.specs.Prelude.{◌≡◌, IfOk, OnOk};
ghost use Rattle.mos_written.specs.Fields as spec;
ghost use Rattle.mos_written.specs.Tables.{record_numbered};

use crate::table::record_numbered;
use mos_names::Names;
use mos_sorts::names::{is_among, note_clash};
use mos_sorts::{RecordSort, Scope, Sort};
use mos_text::{Kind, NoMemory, SourceText};
use std::alloc::Global;

/// Notes `TWICE` of the names of a group that the fields before it have, or that stand twice among them.
pub fn note_fields_twice(
    alloc: Global,
    worst: &mut Option<Kind>,
    fields: &RecordSort,
    names: &[SourceText],
) -> Result<(), NoMemory>
    ensures { OnOk result (worst.new ≡ spec.group_twice fields.now.names names.now worst.old) }
{
    let mut before = Names::new(alloc);
    for name in names {
        let clashes = is_among(fields.names.as_slice(), name) || before.has(name.text());
        note_clash(alloc, worst, clashes, name)?;
        before.note(name.text())?;
    }
    Ok(())
}

/// Adds fields of these names and this type behind the others.
pub fn add_fields(
    alloc: Global,
    fields: &mut RecordSort,
    names: &[SourceText],
    sort: Sort,
) -> Result<(), NoMemory>
    ensures { OnOk result (fields.new ≡ spec.with_fields names.now sort fields.old) }
{
    for name in names {
        fields.names.push(name.copy(alloc)?)?;
        fields.sorts.push(sort)?;
    }
    Ok(())
}

/// A record type with its number, which is that of the first one with the same fields in the same order; the scope
/// knows it from now on.
pub fn record_sort(scope: &mut Scope, fields: RecordSort) -> Result<Sort, NoMemory>
    ensures { IfOk result (λ sort. (sort, scope.new) ≡ record_numbered fields scope.old) }
{
    record_numbered(scope, fields)
}
