//! Types are compared by their parts.
ghost use Rattle.std.specs.Prelude.{◌≡◌};
ghost use Rattle.std.specs.Option.{option_copied};
ghost use Rattle.bim_verify.specs.Kinds as spec;
ghost use Rattle.bim_verify.specs.Kinds.{same_scalar, same_text, same_index, same_field, same_all, same_cell, same_type, same_sort};

use crate::kinds::Sort;
use bim_code::{Field, Image, ImageType};
use mos_text::Text;

fn same_scalar(a: Option<&ImageType>, b: Option<&ImageType>) -> bool
    ensures { result ≡ same_scalar (option_copied a.entry) (option_copied b.entry) }
{
    match (a, b) {
        (Some(ImageType::Integer), Some(ImageType::Integer)) => true,
        (Some(ImageType::Boolean), Some(ImageType::Boolean)) => true,
        (Some(ImageType::Str), Some(ImageType::Str)) => true,
        (Some(ImageType::Model), Some(ImageType::Model)) => true,
        (Some(ImageType::Event), Some(ImageType::Event)) => true,
        _ => false,
    }
}

fn same_text(a: Option<&Text>, b: Option<&Text>) -> bool
    ensures { result ≡ same_text (option_copied a.entry) (option_copied b.entry) }
{
    match (a, b) {
        (Some(a), Some(b)) => a.as_str() == b.as_str(),
        _ => false,
    }
}

fn same_index(image: &Image, a: u16, b: u16) -> bool
    ensures { result ≡ same_index image.now a b }
{
    same_scalar(image.types.get(a as usize), image.types.get(b as usize))
}

fn same_name(image: &Image, a: u32, b: u32) -> bool
    ensures { result ≡ spec.same_name image.now a b }
{
    same_text(
        image.constants.get(a as usize),
        image.constants.get(b as usize),
    )
}

fn same_field(image: &Image, a: Field, b: Field) -> bool
    ensures { result ≡ same_field image.now a b }
{
    same_name(image, a.name, b.name) && same_index(image, a.typ, b.typ)
}

fn same_fields(image: &Image, fields: &[Field], others: &[Field]) -> bool
    ensures { result ≡ same_all (same_field image.now) fields.now others.now }
{
    let mut rest = others;
    for field in fields {
        match rest.split_first() {
            Some((other, more)) => {
                if !same_field(image, *field, *other) {
                    return false;
                }
                rest = more;
            }
            None => return false,
        }
    }
    rest.is_empty()
}

fn same_indexes(image: &Image, indexes: &[u16], others: &[u16]) -> bool
    ensures { result ≡ same_all (same_index image.now) indexes.now others.now }
{
    let mut rest = others;
    for index in indexes {
        match rest.split_first() {
            Some((other, more)) => {
                if !same_index(image, *index, *other) {
                    return false;
                }
                rest = more;
            }
            None => return false,
        }
    }
    rest.is_empty()
}

fn same_cell(image: &Image, a: Option<&ImageType>, b: Option<&ImageType>) -> bool
    ensures { result ≡ same_cell image.now (option_copied a.entry) (option_copied b.entry) }
{
    match (a, b) {
        (Some(ImageType::Record(fields)), Some(ImageType::Record(others))) => {
            same_fields(image, fields.as_slice(), others.as_slice())
        }
        _ => same_scalar(a, b),
    }
}

fn same_array(image: &Image, indexes: &[u16], cell: u16, others: &[u16], another: u16) -> bool
    ensures { result ≡ spec.same_array image.now indexes.now cell others.now another }
{
    same_indexes(image, indexes, others)
        && same_cell(
            image,
            image.types.get(cell as usize),
            image.types.get(another as usize),
        )
}

fn same_type(image: &Image, a: Option<&ImageType>, b: Option<&ImageType>) -> bool
    ensures { result ≡ same_type image.now (option_copied a.entry) (option_copied b.entry) }
{
    match (a, b) {
        (Some(ImageType::Range), Some(ImageType::Range)) => true,
        (Some(ImageType::Set(a)), Some(ImageType::Set(b))) => same_index(image, *a, *b),
        (Some(ImageType::List(a)), Some(ImageType::List(b))) => same_index(image, *a, *b),
        (
            Some(
                ImageType::Array {
                    dynamic,
                    indexes,
                    cell,
                },
            ),
            Some(
                ImageType::Array {
                    dynamic: other,
                    indexes: others,
                    cell: another,
                },
            ),
        ) => {
            same_truth(*dynamic, *other)
                && same_array(
                    image,
                    indexes.as_slice(),
                    *cell,
                    others.as_slice(),
                    *another,
                )
        }
        _ => same_cell(image, a, b),
    }
}

fn same_truth(a: bool, b: bool) -> bool
    ensures { result ≡ spec.same_truth a b }
{
    match (a, b) {
        (true, true) | (false, false) => true,
        _ => false,
    }
}

/// Whether two sorts are one type.
pub(crate) fn same_sort(image: &Image, a: Sort, b: Sort) -> bool
    ensures { result ≡ same_sort image.now a b }
{
    match (a, b) {
        (Sort::Integer, Sort::Integer) => true,
        (Sort::Boolean, Sort::Boolean) => true,
        (Sort::Str, Sort::Str) => true,
        (Sort::Other(a), Sort::Other(b)) => {
            a == b
                || same_type(
                    image,
                    image.types.get(a as usize),
                    image.types.get(b as usize),
                )
        }
        _ => false,
    }
}
