//! The rules on types.
ghost use Rattle.std.specs.Prelude.{◌≡◌, ◌<◌, ◌^◌, length};
ghost use Rattle.std.specs.Option.{option_copied};
ghost use Rattle.std.specs.List.{list_all};
ghost use Rattle.bim_rules.specs.Breaches.{first_of};
ghost use Rattle.bim_rules.specs.Types.{is_type, is_constant, has_field, has_parts, is_member, is_scalar, is_cell, is_index, is_field, is_flat, type_breaches};

use crate::breach::{Breach, Rule, Table, note};
use bim_code::{Field, Image, ImageType};
use sqlite_items::at;

pub(crate) fn is_type(image: &Image, typ: u16) -> bool
    ensures { result ≡ is_type image.now typ }
{
    (typ as usize) < image.types.len()
}

pub(crate) fn is_constant(image: &Image, constant: u32) -> bool
    ensures { result ≡ is_constant image.now constant }
{
    (constant as usize) < image.constants.len()
}

fn all_types(image: &Image, types: &[u16]) -> bool
    ensures { result ≡ list_all (is_type image.now) types.now }
{
    for typ in types {
        if !is_type(image, *typ) {
            return false;
        }
    }
    true
}

fn has_field(image: &Image, field: Field) -> bool
    ensures { result ≡ has_field image.now field }
{
    is_constant(image, field.name) && is_type(image, field.typ)
}

fn has_fields(image: &Image, fields: &[Field]) -> bool
    ensures { result ≡ list_all (has_field image.now) fields.now }
{
    for field in fields {
        if !has_field(image, *field) {
            return false;
        }
    }
    true
}

fn has_parts(image: &Image, typ: &ImageType) -> bool
    ensures { result ≡ has_parts image.now typ.now }
{
    match typ {
        ImageType::Set(member) | ImageType::List(member) => is_type(image, *member),
        ImageType::Array { indexes, cell, .. } => all_types(image, indexes.as_slice())
            && is_type(image, *cell),
        ImageType::Record(fields) => has_fields(image, fields.as_slice()),
        ImageType::Integer | ImageType::Boolean | ImageType::Str => true,
        ImageType::Model | ImageType::Event | ImageType::Range => true,
    }
}

fn is_member(typ: Option<&ImageType>) -> bool
    ensures { result ≡ is_member (option_copied typ.entry) }
{
    match typ {
        Some(ImageType::Integer | ImageType::Boolean | ImageType::Str) => true,
        _ => false,
    }
}

fn is_scalar(typ: Option<&ImageType>) -> bool
    ensures { result ≡ is_scalar (option_copied typ.entry) }
{
    match typ {
        Some(ImageType::Model | ImageType::Event) => true,
        _ => is_member(typ),
    }
}

fn is_cell(typ: Option<&ImageType>) -> bool
    ensures { result ≡ is_cell (option_copied typ.entry) }
{
    match typ {
        Some(ImageType::Record(_)) => true,
        _ => is_scalar(typ),
    }
}

fn all_indexes(before: &[ImageType], indexes: &[u16]) -> bool
    ensures { result ≡ list_all (is_index before.now) indexes.now }
{
    for typ in indexes {
        if !is_member(at(before, *typ as usize)) {
            return false;
        }
    }
    true
}

fn all_fields(before: &[ImageType], fields: &[Field]) -> bool
    ensures { result ≡ list_all (is_field before.now) fields.now }
{
    for field in fields {
        if !is_scalar(at(before, field.typ as usize)) {
            return false;
        }
    }
    true
}

fn is_flat(before: &[ImageType], typ: &ImageType) -> bool
    ensures { result ≡ is_flat before.now typ.now }
{
    match typ {
        ImageType::Set(member) | ImageType::List(member) => is_member(at(before, *member as usize)),
        ImageType::Array { indexes, cell, .. } => all_indexes(before, indexes.as_slice())
            && is_cell(at(before, *cell as usize)),
        ImageType::Record(fields) => all_fields(before, fields.as_slice()),
        ImageType::Integer | ImageType::Boolean | ImageType::Str => true,
        ImageType::Model | ImageType::Event | ImageType::Range => true,
    }
}

/// The breaches by types.
#[tactic(auto, using(crate::proofs::Breaches::first_append))]
pub(crate) fn first_in_types(found: Option<Breach>, image: &Image) -> Option<Breach>
    requires { length image.now.types < 2 ^ 32 }
    ensures { result ≡ first_of found (type_breaches image.now 0 image.now.types) }
{
    let mut found = found;
    let mut number: u32 = 0;
    let types = image.types.as_slice();
    for typ in types {
        let (before, _behind) = types.split_at(number as usize);
        found = note(
            found,
            Rule::Numbers,
            Table::Types,
            number,
            has_parts(image, typ),
        );
        found = note(
            found,
            Rule::Types,
            Table::Types,
            number,
            is_flat(before, typ),
        );
        number += 1;
    }
    found
}
