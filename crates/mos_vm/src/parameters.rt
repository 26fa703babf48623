//! The parameters of a model, and what a parameter text gives them.
ghost use Rattle.std.specs.Prelude.{◌≡◌, [], None, IfOk, IsUtf8, length, option_map};
ghost use Rattle.std.specs.Str.{bytes_eq};
ghost use Rattle.mos_names.specs.NameLists.{place_of};
ghost use Rattle.run_state.specs.Parameters.{ends_item, open_behind, items_from, given_values, given_behind};
ghost use Rattle.bim_machine.specs.Starts.{parameter_in, default_value, all_of};
ghost use Rattle.mos_vm.specs.Givens.{names_of, defaults_of, IsPut};

use crate::written::{is_quote, position, trimmed, value_written};
use bim_code::{Default, Parameter};
use mos_text::{NoMemory, Scalar, Text};
use sqlite_items::{Items, at};
use std::alloc::Global;
use std::marker::Model;

/// A parameter: its name, and its value where the text gives none. The value is of its type.
#[derive(Drop)]
pub(crate) struct Formal {
    name: Text,
    default: Scalar,
}

impl Model for Formal {
    ghost use Rattle.run_state.specs.Parameters.{Parameter as Meant};

    ghost Value = { Meant };

    ghost view = { λ f. record { name = f.name; default = f.default } };
}

impl Formal {
    fn default(&self) -> &Scalar
        ensures { result.now ≡ self.now.default }
    {
        &self.default
    }

    fn has_name(&self, name: &[u8]) -> bool
        ensures { result ≡ bytes_eq name.now self.now.name }
    {
        name == self.name.as_bytes()
    }
}

/// The parameters of an image; none where a number is in no table.
pub(crate) fn parameters(
    alloc: Global,
    constants: &[Text],
    params: &[Parameter],
) -> Result<Option<Items<Formal>>, NoMemory>
    ensures { IfOk result (λ all. all ≡ all_of (parameter_in constants.now) params.now) }
{
    let mut all = Items::new(alloc);
    for param in params {
        match parameter(alloc, constants, *param)? {
            Some(formal) => all.push(formal)?,
            None => return Ok(None),
        }
    }
    Ok(Some(all))
}

fn parameter(
    alloc: Global,
    constants: &[Text],
    param: Parameter,
) -> Result<Option<Formal>, NoMemory>
    ensures { IfOk result (λ formal. formal ≡ parameter_in constants.now param) }
{
    match at(constants, param.name as usize) {
        Some(name) => {
            let name = name.copy(alloc)?;
            let default = default_value(alloc, constants, param.default)?;
            Ok(named(name, default))
        }
        None => Ok(None),
    }
}

fn named(name: Text, default: Option<Scalar>) -> Option<Formal>
    ensures { result ≡ option_map (λ value. record { name = name; default = value }) default }
{
    match default {
        Some(default) => Some(Formal { name, default }),
        None => None,
    }
}

fn default_value(
    alloc: Global,
    constants: &[Text],
    default: Default,
) -> Result<Option<Scalar>, NoMemory>
    ensures { IfOk result (λ value. value ≡ default_value constants.now default) }
{
    match default {
        Default::Number(number) => Ok(Some(Scalar::Int(number))),
        Default::Truth(truth) => Ok(Some(Scalar::Bool(truth))),
        Default::Constant(constant) => match at(constants, constant as usize) {
            Some(text) => Ok(Some(Scalar::Str(text.copy(alloc)?))),
            None => Ok(None),
        },
    }
}

/// The values of the parameters, or none where the text is refused.
pub(crate) fn given_values(
    alloc: Global,
    formals: &[Formal],
    text: &Text,
) -> Result<Option<Items<Scalar>>, NoMemory>
    ensures { IfOk result (λ values. values ≡ given_values formals.now text.now) }
{
    let values = defaults(alloc, formals)?;
    let bytes = text.as_bytes();
    if bytes.is_empty() {
        return Ok(Some(values));
    }
    given_behind(alloc, formals, values, bytes)
}

/// The default of each parameter.
fn defaults(alloc: Global, formals: &[Formal]) -> Result<Items<Scalar>, NoMemory>
    ensures { IfOk result (λ values. values ≡ defaults_of formals.now) }
{
    let mut values = Items::new(alloc);
    for formal in formals {
        values.push(formal.default().copy(alloc)?)?;
    }
    Ok(values)
}

/// The values behind the items of a text that is not empty.
fn given_behind(
    alloc: Global,
    formals: &[Formal],
    values: Items<Scalar>,
    text: &[u8],
) -> Result<Option<Items<Scalar>>, NoMemory>
    requires utf8 { IsUtf8 text.now }
    requires all { length values ≡ length formals.now }
    ensures { IfOk result
        (λ given. given ≡ given_behind formals.now values (items_from None [] text.now)) }
{
    let mut values = values;
    let mut quote: Option<u8> = None;
    let mut begin: usize = 0;
    for index in 0..text.len() {
        let byte = text[index];
        if ends_item(quote, byte) {
            if !put_item(alloc, formals, &mut values, &text[begin..index])? {
                return Ok(None);
            }
            begin = index + 1;
        }
        quote = open_behind(quote, byte);
    }
    if put_item(alloc, formals, &mut values, &text[begin..])? {
        return Ok(Some(values));
    }
    Ok(None)
}

/// A comma outside quotes.
fn ends_item(quote: Option<u8>, byte: u8) -> bool
    ensures { result ≡ ends_item quote byte }
{
    match quote {
        None => byte == b',',
        Some(_) => false,
    }
}

/// The quote that is open behind a byte.
fn open_behind(quote: Option<u8>, byte: u8) -> Option<u8>
    ensures { result ≡ open_behind quote byte }
{
    match quote {
        None if is_quote(byte) => Some(byte),
        None => None,
        Some(open) if open == byte => None,
        Some(open) => Some(open),
    }
}

/// Puts the value that an item gives, or says that it gives none.
fn put_item(
    alloc: Global,
    formals: &[Formal],
    values: &mut Items<Scalar>,
    item: &[u8],
) -> Result<bool, NoMemory>
    requires utf8 { IsUtf8 item.now }
    requires all { length values.old ≡ length formals.now }
    ensures put { IfOk result (λ ok. IsPut formals.now values.old item.now ok values.new) }
    ensures all { length values.new ≡ length values.old }
{
    let equals = position(item, b'=');
    if equals == item.len() {
        return Ok(false);
    }
    let place = place_of(formals, trimmed(&item[..equals]));
    match at(formals, place) {
        Some(formal) => {
            match value_written(alloc, formal.default(), trimmed(&item[equals + 1..]))? {
                Some(value) => {
                    values.set(place, value);
                    Ok(true)
                }
                None => Ok(false),
            }
        }
        None => Ok(false),
    }
}

/// The place of the parameter of this name; their number where there is none.
fn place_of(formals: &[Formal], name: &[u8]) -> usize
    ensures { result ≡ place_of name.now (names_of formals.now) }
{
    let mut place = 0;
    for formal in formals {
        if formal.has_name(name) {
            return place;
        }
        place += 1;
    }
    place
}
