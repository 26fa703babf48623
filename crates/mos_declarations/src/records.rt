//! Records.
ghost use Rattle.std.specs.Prelude.{◌≡◌, Ok, Err, IfOk, OnOk};
ghost use Rattle.mos_declarations.specs.Taken.{taken};
ghost use Rattle.mos_types.specs.Faults.{IfAt};
ghost use Rattle.mos_sorts.specs.Kinds.{least};
ghost use Rattle.mos_declarations.specs.Items as spec;

use crate::declaring::twice_here;
use crate::written::written;
use mos_sorts::meaning::declare;
use mos_sorts::worst::note;
use mos_sorts::{RecordSort, Role, Scope, Sort};
use mos_text::{Kind, NoMemory, SourceText};
use mos_tree::{FieldGroup, TypeForm};
use mos_types::{TypeFault, judge};
use mos_written::{add_fields, note_fields_twice, note_structured, record_sort};
use sqlite_items::Items;
use std::alloc::Global;

/// `NAME = record`
fn record_piece(
    alloc: Global,
    line: u32,
    scope: &mut Scope,
    name: &SourceText,
) -> Result<(), TypeFault>
    ensures ok { OnOk result (taken line (spec.record_piece name.now scope.old) ≡ Ok scope.new) }
    ensures fault { IfAt result (λ f. taken line (spec.record_piece name.now scope.old) ≡ Err f) }
{
    let worst = twice_here(alloc, scope, name)?;
    judge(line, worst)?;
    declare(alloc, scope, name, Role::Record(None))?;
    Ok(())
}

/// Notes a type that is no scalar; what is written with parts is none, whatever stands in it.
fn note_field(worst: &mut Option<Kind>, typ: &TypeForm, sort: Option<Sort>)
    ensures { worst.new ≡ least worst.old (spec.wrong_field typ.now sort) }
{
    match typ {
        TypeForm::Base(_) => note_structured(worst, sort),
        _ => note(worst, Kind::Flat),
    }
}

fn add_typed(
    alloc: Global,
    fields: &mut RecordSort,
    names: &[SourceText],
    sort: Option<Sort>,
) -> Result<(), NoMemory>
    ensures { OnOk result (fields.new ≡ spec.with_typed names.now sort fields.old) }
{
    match sort {
        Some(sort) => add_fields(alloc, fields, names, sort),
        None => Ok(()),
    }
}

/// Fields of one type, behind others of the record.
fn fields_piece(
    alloc: Global,
    scope: &mut Scope,
    fields: &mut RecordSort,
    group: &FieldGroup,
) -> Result<(), TypeFault>
    ensures ok { OnOk result
        (taken group.now.line (spec.fields_piece group.now fields.old scope.old)
        ≡ Ok (fields.new, scope.new)) }
    ensures fault { IfAt result
        (λ f. taken group.now.line (spec.fields_piece group.now fields.old scope.old) ≡ Err f) }
{
    let mut worst = None;
    let names = group.names.as_slice();
    note_fields_twice(alloc, &mut worst, fields, names)?;
    let found = written(alloc, &mut worst, scope, &group.typ)?;
    note_field(&mut worst, &group.typ, found.sort);
    judge(group.line, worst)?;
    add_typed(alloc, fields, names, found.sort)?;
    Ok(())
}

/// The fields of a record.
fn all_fields(
    alloc: Global,
    scope: &mut Scope,
    groups: &[FieldGroup],
) -> Result<RecordSort, TypeFault>
    ensures ok { IfOk result
        (λ fields. spec.fields_found groups.now spec.no_fields scope.old ≡ Ok (fields, scope.new)) }
    ensures fault { IfAt result
        (λ f. spec.fields_found groups.now spec.no_fields scope.old ≡ Err f) }
{
    let mut fields = RecordSort {
        names: Items::new(alloc),
        sorts: Items::new(alloc),
    };
    for group in groups {
        fields_piece(alloc, scope, &mut fields, group)?;
    }
    Ok(fields)
}

/// `NAME = record .. end-record`
pub fn record_item(
    alloc: Global,
    line: u32,
    scope: &mut Scope,
    name: &SourceText,
    groups: &[FieldGroup],
) -> Result<(), TypeFault>
    ensures ok { OnOk result (spec.record_found line name.now groups.now scope.old ≡ Ok scope.new) }
    ensures fault { IfAt result
        (λ f. spec.record_found line name.now groups.now scope.old ≡ Err f) }
{
    record_piece(alloc, line, scope, name)?;
    let fields = all_fields(alloc, scope, groups)?;
    let sort = record_sort(scope, fields)?;
    declare(alloc, scope, name, Role::Record(Some(sort)))?;
    Ok(())
}
