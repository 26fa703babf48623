//! How a run begins, by the tables of its image: a default in each global slot, then parameters.
ghost use Rattle.std.specs.Prelude.{◌≡◌, [], Some, IfOk, slice_get, option_map};
ghost use Rattle.run_state.specs.Parameters.{and_then, with_values};
ghost use Rattle.bim_machine.specs.Starts.{scalar_default, type_default, member_type, member_at, field_names, field_defaults, defaults_in, by_parameters, with_given, beginning_of};
ghost use Rattle.bim_code.specs.declared.image.ImageType.TheVariants as table;
ghost use Rattle.mos_value.specs.Values.{SetOf, ListOf, Fields};
ghost use Rattle.mos_vm.specs.Beginnings.{beginning_by, slots_of, field_default};

use crate::parameters::{Formal, given_values, parameters};
use crate::value::Value;
use bim_code::{Field, Image, ImageType, Parameter};
use mos_text::{NoMemory, Scalar, Text};
use mos_value::MemberType;
use sqlite_items::{Items, at};
use std::alloc::Global;

/// How a run begins.
#[derive(Drop)]
pub(crate) enum Start {
    /// The parameter text is refused.
    Refused,
    /// The tables are wrong.
    Broken,
    /// With these values in the global slots.
    Begins(Items<Value>),
}

/// The beginning of an image's run with a parameter text.
pub(crate) fn beginning(alloc: Global, image: &Image, text: &Text) -> Result<Start, NoMemory>
    ensures { IfOk result (λ start. beginning_by start ≡ beginning_of image.now text.now) }
{
    match parameters(alloc, image.constants.as_slice(), image.params.as_slice())? {
        Some(formals) => start_with_text(alloc, image, formals.as_slice(), text),
        None => Ok(Start::Broken),
    }
}

fn start_with_text(
    alloc: Global,
    image: &Image,
    formals: &[Formal],
    text: &Text,
) -> Result<Start, NoMemory>
    ensures { IfOk result
        (λ start. beginning_by start ≡ by_parameters (Some formals.now) image.now text.now) }
{
    match given_values(alloc, formals, text)? {
        Some(given) => start_with_values(alloc, image, given),
        None => Ok(Start::Refused),
    }
}

/// The beginning with these values of the parameters.
fn start_with_values(alloc: Global, image: &Image, given: Items<Scalar>) -> Result<Start, NoMemory>
    ensures { IfOk result (λ start. beginning_by start
        ≡ with_given (Some given) image.now
        (defaults_in image.now.constants image.now.types image.now.globals)) }
{
    let constants = image.constants.as_slice();
    match defaults(
        alloc,
        constants,
        image.types.as_slice(),
        image.globals.as_slice(),
    )? {
        Some(values) => match with_values(alloc, image.params.as_slice(), given, values)? {
            Some(values) => Ok(Start::Begins(values)),
            None => Ok(Start::Broken),
        },
        None => Ok(Start::Broken),
    }
}

/// The defaults of the types of these numbers.
fn defaults(
    alloc: Global,
    constants: &[Text],
    types: &[ImageType],
    numbers: &[u16],
) -> Result<Option<Items<Value>>, NoMemory>
    ensures { IfOk result (λ values. values ≡ defaults_in constants.now types.now numbers.now) }
{
    let mut values = Items::new(alloc);
    for number in numbers {
        match numbered_default(alloc, constants, types, *number)? {
            Some(value) => values.push(value)?,
            None => return Ok(None),
        }
    }
    Ok(Some(values))
}

fn numbered_default(
    alloc: Global,
    constants: &[Text],
    types: &[ImageType],
    number: u16,
) -> Result<Option<Value>, NoMemory>
    ensures { IfOk result (λ value. value
        ≡ and_then (slice_get types.now number) (type_default constants.now types.now)) }
{
    match at(types, number as usize) {
        Some(typ) => type_default(alloc, constants, types, typ),
        None => Ok(None),
    }
}

/// The default of a type.
fn type_default(
    alloc: Global,
    constants: &[Text],
    types: &[ImageType],
    typ: &ImageType,
) -> Result<Option<Value>, NoMemory>
    ensures { IfOk result (λ value. value ≡ type_default constants.now types.now typ.now) }
{
    match typ {
        ImageType::Integer => Ok(Some(Value::one(Scalar::Int(0)))),
        ImageType::Boolean => Ok(Some(Value::one(Scalar::Bool(false)))),
        ImageType::Str => Ok(Some(Value::one(Scalar::Str(no_text(alloc))))),
        ImageType::Model => Ok(Some(Value::one(Scalar::Model(0)))),
        ImageType::Event => Ok(Some(Value::one(Scalar::Event(0, 0)))),
        ImageType::Range => Ok(Some(Value::range(1, 0))),
        ImageType::Set(member) => Ok(set_default(alloc, types, *member)),
        ImageType::List(member) => Ok(list_default(alloc, types, *member)),
        ImageType::Array { .. } => Ok(None),
        ImageType::Record(fields) => record_default(alloc, constants, types, fields.as_slice()),
    }
}

fn set_default(alloc: Global, types: &[ImageType], member: u16) -> Option<Value>
    ensures { result ≡ option_map (λ m. SetOf m []) (member_at types.now member) }
{
    match member_at(types, member) {
        Some(member) => Some(Value::no_members(alloc, member)),
        None => None,
    }
}

fn list_default(alloc: Global, types: &[ImageType], member: u16) -> Option<Value>
    ensures { result ≡ option_map (λ m. ListOf m []) (member_at types.now member) }
{
    match member_at(types, member) {
        Some(member) => Some(Value::no_items(alloc, member)),
        None => None,
    }
}

/// What the members of a set or list can be, by the number of their type.
fn member_at(types: &[ImageType], number: u16) -> Option<MemberType>
    ensures { result ≡ member_at types.now number }
{
    match at(types, number as usize) {
        Some(typ) => member_type(typ),
        None => None,
    }
}

fn member_type(typ: &ImageType) -> Option<MemberType>
    ensures { result ≡ member_type typ.now }
{
    match typ {
        ImageType::Integer => Some(MemberType::Integer),
        ImageType::Boolean => Some(MemberType::Boolean),
        ImageType::Str => Some(MemberType::Str),
        ImageType::Model | ImageType::Event | ImageType::Range => None,
        ImageType::Set(_) | ImageType::List(_) => None,
        ImageType::Array { .. } | ImageType::Record(_) => None,
    }
}

fn record_default(
    alloc: Global,
    constants: &[Text],
    types: &[ImageType],
    fields: &[Field],
) -> Result<Option<Value>, NoMemory>
    ensures { IfOk result (λ value. value
        ≡ type_default constants.now types.now (table.Record fields.now)) }
{
    match field_names(alloc, constants, fields)? {
        Some(names) => named_default(alloc, types, fields, names),
        None => Ok(None),
    }
}

/// The default of a record whose fields have these names.
fn named_default(
    alloc: Global,
    types: &[ImageType],
    fields: &[Field],
    names: Items<Text>,
) -> Result<Option<Value>, NoMemory>
    ensures { IfOk result (λ value. value
        ≡ option_map (Fields names) (field_defaults types.now fields.now)) }
{
    match field_defaults(alloc, types, fields) {
        Ok(Some(values)) => Ok(Some(Value::fields(names, values))),
        Ok(None) => Ok(None),
        Err(refusal) => Err(refusal),
    }
}

/// The names of these fields.
fn field_names(
    alloc: Global,
    constants: &[Text],
    fields: &[Field],
) -> Result<Option<Items<Text>>, NoMemory>
    ensures { IfOk result (λ names. names ≡ field_names constants.now fields.now) }
{
    let mut names = Items::new(alloc);
    for field in fields {
        match at(constants, field.name as usize) {
            Some(name) => names.push(name.copy(alloc)?)?,
            None => return Ok(None),
        }
    }
    Ok(Some(names))
}

/// The defaults of these fields.
fn field_defaults(
    alloc: Global,
    types: &[ImageType],
    fields: &[Field],
) -> Result<Option<Items<Scalar>>, NoMemory>
    ensures { IfOk result (λ values. values ≡ field_defaults types.now fields.now) }
{
    let mut values = Items::new(alloc);
    for field in fields {
        match field_default(alloc, types, *field) {
            Some(value) => values.push(value)?,
            None => return Ok(None),
        }
    }
    Ok(Some(values))
}

fn field_default(alloc: Global, types: &[ImageType], field: Field) -> Option<Scalar>
    ensures { result ≡ field_default types.now field }
{
    match at(types, field.typ as usize) {
        Some(typ) => scalar_default(alloc, typ),
        None => None,
    }
}

/// The default of a type without parts.
fn scalar_default(alloc: Global, typ: &ImageType) -> Option<Scalar>
    ensures { result ≡ scalar_default typ.now }
{
    match typ {
        ImageType::Integer => Some(Scalar::Int(0)),
        ImageType::Boolean => Some(Scalar::Bool(false)),
        ImageType::Str => Some(Scalar::Str(no_text(alloc))),
        ImageType::Model => Some(Scalar::Model(0)),
        ImageType::Event => Some(Scalar::Event(0, 0)),
        ImageType::Range | ImageType::Set(_) | ImageType::List(_) => None,
        ImageType::Array { .. } | ImageType::Record(_) => None,
    }
}

fn no_text(alloc: Global) -> Text
    ensures { result ≡ [] }
{
    Text::from_string(String::new(alloc))
}

/// The values with that of each parameter in its slot.
fn with_values(
    alloc: Global,
    params: &[Parameter],
    given: Items<Scalar>,
    values: Items<Value>,
) -> Result<Option<Items<Value>>, NoMemory>
    ensures { IfOk result (λ all. all ≡ with_values (slots_of params.now) given values) }
{
    let mut values = values;
    for place in 0..params.len() {
        let slot = params[place].slot as usize;
        match given.get(place) {
            Some(value) => {
                if slot >= values.len() {
                    return Ok(None);
                }
                values.set(slot, Value::one(value.copy(alloc)?));
            }
            None => return Ok(None),
        }
    }
    Ok(Some(values))
}
