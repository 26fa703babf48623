//! Types without an index: what is written for them, and the rules that it breaks.
ghost use Rattle.std.specs.Prelude.{◌≡◌, IfOk, OnOk};
ghost use Rattle.mos_sorts.specs.Kinds.{least};
ghost use Rattle.mos_written.specs.Bases as spec;

use mos_sorts::fits::{as_member, is_scalar};
use mos_sorts::meaning::{Meaning, meaning_of};
use mos_sorts::vocabulary::undeclared;
use mos_sorts::worst::{note, note_if, note_unknown};
use mos_sorts::{Role, Scope, Sort, Undeclared};
use mos_text::{Kind, NoMemory, SourceText};
use mos_tree::{BaseType, TypeForm};
use mos_value::MemberType;
use std::alloc::Global;

/// What a name stands for in a type's place.
#[derive(Clone, Copy)]
pub enum TypeName {
    Known(Sort),
    /// A record whose fields are being read.
    Unfinished,
    /// A name of the module of jobs, which is not used.
    Jobs,
    /// No type.
    Nothing,
}

fn type_of_role(role: &Role) -> TypeName
    ensures { result ≡ spec.type_of_role role.now }
{
    match role {
        Role::Record(Some(sort)) => TypeName::Known(*sort),
        Role::Record(None) => TypeName::Unfinished,
        _ => TypeName::Nothing,
    }
}

fn type_of_undeclared(found: Undeclared) -> TypeName
    ensures { result ≡ spec.type_of_undeclared found }
{
    match found {
        Undeclared::Model => TypeName::Known(Sort::Model),
        Undeclared::Event => TypeName::Known(Sort::Event),
        Undeclared::Jobs => TypeName::Jobs,
        _ => TypeName::Nothing,
    }
}

fn type_named(scope: &Scope, name: &SourceText) -> TypeName
    ensures { result ≡ spec.type_named name.now scope.now }
{
    match meaning_of(scope, scope.bound.as_slice(), name) {
        Meaning::Index(_) => TypeName::Nothing,
        Meaning::Declared(_, role) => type_of_role(role),
        Meaning::Undeclared => type_of_undeclared(undeclared(scope.jobs, name.as_bytes())),
    }
}

fn sort_known(found: TypeName) -> Option<Sort>
    ensures { result ≡ spec.sort_known found }
{
    match found {
        TypeName::Known(sort) => Some(sort),
        _ => None,
    }
}

fn note_name(
    alloc: Global,
    worst: &mut Option<Kind>,
    name: &SourceText,
    found: TypeName,
) -> Result<(), NoMemory>
    ensures { OnOk result (worst.new ≡ least worst.old (spec.wrong_name name.now found)) }
{
    match found {
        TypeName::Known(_) => {}
        TypeName::Unfinished => note(worst, Kind::Flat),
        TypeName::Jobs => note(worst, Kind::Jobs),
        TypeName::Nothing => note_unknown(alloc, worst, name)?,
    }
    Ok(())
}

/// The type that a name stands for. Notes `UNKNOWN` of what is no type, `JOBS` of a name of the module of jobs
/// where that is not used, and `FLAT` of a record in one of its own fields.
fn named_sort(
    alloc: Global,
    worst: &mut Option<Kind>,
    scope: &Scope,
    name: &SourceText,
) -> Result<Option<Sort>, NoMemory>
    ensures sort { IfOk result (λ found. found
        ≡ spec.sort_known (spec.type_named name.now scope.now)) }
    ensures worst { OnOk result
        (worst.new
        ≡ least worst.old (spec.wrong_name name.now (spec.type_named name.now scope.now))) }
{
    let found = type_named(scope, name);
    note_name(alloc, worst, name, found)?;
    Ok(sort_known(found))
}

/// The type that a base stands for. Notes `UNKNOWN` of a name that is no type, `JOBS` of a name of the module of
/// jobs where that is not used, and `FLAT` of a record in one of its own fields.
pub fn base_sort(
    alloc: Global,
    worst: &mut Option<Kind>,
    scope: &Scope,
    base: &BaseType,
) -> Result<Option<Sort>, NoMemory>
    ensures sort { IfOk result (λ found. found ≡ spec.base_sort base.now scope.now) }
    ensures worst { OnOk result (worst.new ≡ spec.after_base base.now scope.now worst.old) }
{
    match base {
        BaseType::Integer => Ok(Some(Sort::Integer)),
        BaseType::Boolean => Ok(Some(Sort::Boolean)),
        BaseType::Text => Ok(Some(Sort::Text)),
        BaseType::Named(name) => named_sort(alloc, worst, scope, name),
    }
}

/// The type as that of members. Notes `FLAT` of one that members cannot have.
fn member_of(worst: &mut Option<Kind>, sort: Option<Sort>) -> Option<MemberType>
    ensures member { result ≡ spec.member_of sort }
    ensures worst { worst.new ≡ least worst.old (spec.wrong_member sort) }
{
    let member = as_member(sort?);
    note_if(worst, member.is_none(), Kind::Flat);
    member
}

/// The type of a base as that of members. Notes what the base breaks, and `FLAT` of one that members cannot have.
pub(crate) fn base_member(
    alloc: Global,
    worst: &mut Option<Kind>,
    scope: &Scope,
    base: &BaseType,
) -> Result<Option<MemberType>, NoMemory>
    ensures member { IfOk result (λ found. found ≡ spec.base_member base.now scope.now) }
    ensures worst { OnOk result (worst.new ≡ spec.after_member base.now scope.now worst.old) }
{
    let sort = base_sort(alloc, worst, scope, base)?;
    Ok(member_of(worst, sort))
}

/// Notes `FLAT` of the type of a field, or of a function's result, that is no scalar.
pub fn note_structured(worst: &mut Option<Kind>, sort: Option<Sort>)
    ensures { worst.new ≡ least worst.old (spec.wrong_scalar sort) }
{
    if let Some(sort) = sort {
        note_if(worst, !is_scalar(sort), Kind::Flat);
    }
}

/// The type that is written so, if that is no array. Notes what it breaks: the rules of its base, and `FLAT` of
/// a set or list whose members cannot be of that type.
pub fn plain_sort(
    alloc: Global,
    worst: &mut Option<Kind>,
    scope: &Scope,
    typ: &TypeForm,
) -> Result<Option<Sort>, NoMemory>
    ensures sort { IfOk result (λ found. found ≡ spec.plain_sort typ.now scope.now) }
    ensures worst { OnOk result (worst.new ≡ spec.after_plain typ.now scope.now worst.old) }
{
    match typ {
        TypeForm::Base(base) => base_sort(alloc, worst, scope, base),
        TypeForm::Range => Ok(Some(Sort::Range)),
        TypeForm::Set(base) => {
            let member = base_member(alloc, worst, scope, base)?;
            Ok(member.map(|member| Sort::Set(member)))
        }
        TypeForm::List(base) => {
            let member = base_member(alloc, worst, scope, base)?;
            Ok(member.map(|member| Sort::List(member)))
        }
        TypeForm::Array { .. } => Ok(None),
    }
}
