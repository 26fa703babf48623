//! The type of an expression, with all its parts.
ghost use Rattle.std.specs.Prelude.{◌≡◌, Ok, Err, IfOk, map, option_copied, MatchOption, None, Some};
ghost use Rattle.mos_types.specs.Faults.{IfAt};
ghost use Rattle.mos_types.specs.Typs as spec;

use crate::TypeFault;
use crate::looking::look;
use mos_sorts::trees::sort_of;
use mos_sorts::{ArraySort, RecordSort, Scope, Sort};
use mos_text::{Kind, NoMemory, SourceText, Text, Typ};
use mos_tree::Expr;
use mos_value::MemberType;
use sqlite_items::{Boxed, Items, at};
use std::alloc::Global;

fn member_typ(member: MemberType) -> Typ
    ensures { result ≡ spec.member_typ member }
{
    match member {
        MemberType::Integer => Typ::Integer,
        MemberType::Boolean => Typ::Boolean,
        MemberType::Str => Typ::Str,
    }
}

/// The type of a field, which has no parts.
fn field_typ(sort: Sort) -> Option<Typ>
    ensures { result ≡ spec.field_typ sort }
{
    match sort {
        Sort::Integer => Some(Typ::Integer),
        Sort::Boolean => Some(Typ::Boolean),
        Sort::Text => Some(Typ::Str),
        Sort::Model => Some(Typ::Model),
        Sort::Event => Some(Typ::Event),
        _ => None,
    }
}

/// The types of fields, if each has no parts.
fn field_typs(alloc: Global, sorts: &[Sort]) -> Result<Option<Items<Typ>>, NoMemory>
    ensures { IfOk result (λ x. x ≡ spec.field_typs sorts.now) }
{
    let mut types = Items::new(alloc);
    for sort in sorts {
        match field_typ(*sort) {
            Some(typ) => types.push(typ)?,
            None => return Ok(None),
        }
    }
    Ok(Some(types))
}

fn names_of(alloc: Global, names: &[SourceText]) -> Result<Items<Text>, NoMemory>
    ensures { IfOk result (λ x. x ≡ names.now) }
{
    let mut all = Items::new(alloc);
    for name in names {
        all.push(name.text().copy(alloc)?)?;
    }
    Ok(all)
}

fn record_typ(alloc: Global, found: Option<&RecordSort>) -> Result<Option<Typ>, NoMemory>
    ensures { IfOk result (λ x. x ≡ spec.record_typ (option_copied found.entry)) }
{
    match found {
        None => Ok(None),
        Some(found) => match field_typs(alloc, found.sorts.as_slice())? {
            None => Ok(None),
            Some(types) => {
                let names = names_of(alloc, found.names.as_slice())?;
                Ok(Some(Typ::Record { names, types }))
            }
        },
    }
}

fn cell_typ(alloc: Global, records: &[RecordSort], sort: Sort) -> Result<Option<Typ>, NoMemory>
    ensures { IfOk result (λ x. x ≡ spec.cell_typ records.now sort) }
{
    match sort {
        Sort::Record(number) => record_typ(alloc, at(records, number as usize)),
        sort => Ok(field_typ(sort)),
    }
}

fn index_typs(alloc: Global, members: &[MemberType]) -> Result<Items<Typ>, NoMemory>
    ensures { IfOk result (λ x. x ≡ map spec.member_typ members.now) }
{
    let mut all = Items::new(alloc);
    for member in members {
        all.push(member_typ(*member))?;
    }
    Ok(all)
}

fn array_typ(
    alloc: Global,
    records: &[RecordSort],
    found: Option<&ArraySort>,
) -> Result<Option<Typ>, NoMemory>
    ensures { IfOk result (λ x. x ≡ spec.array_typ records.now (option_copied found.entry)) }
{
    match found {
        None => Ok(None),
        Some(found) => match cell_typ(alloc, records, found.cell)? {
            None => Ok(None),
            Some(cell) => {
                let cell = Boxed::new(alloc, cell)?;
                let indexes = index_typs(alloc, found.indexes.as_slice())?;
                Ok(Some(Typ::Array {
                    dynamic: found.dynamic,
                    indexes,
                    cell,
                }))
            }
        },
    }
}

/// A type with its parts, where they are known.
fn typ_of(alloc: Global, scope: &Scope, sort: Sort) -> Result<Option<Typ>, NoMemory>
    ensures { IfOk result (λ x. x ≡ spec.typ_of scope.now sort) }
{
    let records = scope.records.as_slice();
    match sort {
        Sort::Range => Ok(Some(Typ::Range)),
        Sort::Set(member) => Ok(Some(Typ::Set(Boxed::new(alloc, member_typ(member))?))),
        Sort::List(member) => Ok(Some(Typ::List(Boxed::new(alloc, member_typ(member))?))),
        Sort::EmptySet => Ok(Some(Typ::EmptySet)),
        Sort::EmptyList => Ok(Some(Typ::EmptyList)),
        Sort::Array(number) => {
            array_typ(alloc, records, at(scope.arrays.as_slice(), number as usize))
        }
        other => cell_typ(alloc, records, other),
    }
}

fn typ_if(alloc: Global, scope: &Scope, sort: Option<Sort>) -> Result<Option<Typ>, NoMemory>
    ensures { IfOk result (λ x. x ≡ spec.typ_if scope.now sort) }
{
    match sort {
        Some(sort) => typ_of(alloc, scope, sort),
        None => Ok(None),
    }
}

fn typ_or_fault(line: u32, typ: Option<Typ>) -> Result<Typ, TypeFault>
    ensures ok { IfOk result (λ x. spec.typ_or_fault line typ ≡ Ok x) }
    ensures fault { IfAt result (λ f. spec.typ_or_fault line typ ≡ Err f) }
{
    match typ {
        Some(typ) => Ok(typ),
        None => Err(TypeFault::At {
            line,
            kind: Kind::NoType,
        }),
    }
}

/// The type of an expression in a scope, which is that of the piece that is looked at.
pub fn type_of(alloc: Global, expr: &Expr, scope: &Scope) -> Result<Typ, TypeFault>
    ensures ok { IfOk result (λ x. spec.type_of expr.now scope.now ≡ Ok x) }
    ensures fault { IfAt result (λ f. spec.type_of expr.now scope.now ≡ Err f) }
{
    let mut worst = None;
    let tree = look(alloc, &mut worst, scope, scope.bound.as_slice(), expr)?;
    let line = scope.line;
    match worst {
        Some(kind) => Err(TypeFault::At { line, kind }),
        None => {
            let typ = typ_if(alloc, scope, sort_of(&tree))?;
            typ_or_fault(line, typ)
        }
    }
}
