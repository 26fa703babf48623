//! Each kind of entry.
ghost use Rattle.std.specs.Prelude.{◌≡◌};
ghost use Rattle.bim_read.specs.Reading.{Finds, table};
ghost use Rattle.bim_read.specs.Fields.{half_at};
ghost use Rattle.bim_read.specs.Entries as entries;

use crate::cursor::{Cursor, wrong};
use crate::decode::{Decode, read_many, read_short_table};
use crate::fault::{FaultKind, ReadFault};
use bim_code::{Default, Field, Form, ImageType, Operand, Parameter, Point, Routine, Slot};
use mos_text::Text;
use sqlite_items::Items;
use std::alloc::Global;

impl Decode for u16 {
    ghost use Rattle.bim_read.specs.Fields.{half_at};

    ghost reading = { half_at };

    fn read(_alloc: Global, from: &mut Cursor<'_>) -> Result<u16, ReadFault> {
        from.half()
    }
}

#[tactic(auto, unfolding(crate::specs::Fields::text_at))]
impl Decode for Text {
    ghost use Rattle.bim_read.specs.Fields.{text_at};

    ghost reading = { text_at };

    fn read(alloc: Global, from: &mut Cursor<'_>) -> Result<Text, ReadFault> {
        let many = from.count(1048576)?;
        from.text_of(alloc, many as usize)
    }
}

#[tactic(auto, unfolding(crate::specs::Entries::field_at))]
impl Decode for Field {
    ghost use Rattle.bim_read.specs.Entries.{field_at};

    ghost reading = { field_at };

    fn read(_alloc: Global, from: &mut Cursor<'_>) -> Result<Field, ReadFault> {
        let name = from.word()?;
        let typ = from.half()?;
        Ok(Field { name, typ })
    }
}

/// The tags of types, from 1 on.
#[derive(Clone, Copy, PartialEq, Debug, Drop)]
pub enum TypeTag {
    Integer,
    Boolean,
    Str,
    Model,
    Event,
    Range,
    Set,
    List,
    Array,
    Record,
}

fn type_tag_of(number: u8) -> Option<TypeTag>
    ensures { result ≡ entries.type_tag_of number }
{
    match number {
        1 => Some(TypeTag::Integer),
        2 => Some(TypeTag::Boolean),
        3 => Some(TypeTag::Str),
        4 => Some(TypeTag::Model),
        5 => Some(TypeTag::Event),
        6 => Some(TypeTag::Range),
        7 => Some(TypeTag::Set),
        8 => Some(TypeTag::List),
        9 => Some(TypeTag::Array),
        10 => Some(TypeTag::Record),
        _ => None,
    }
}

fn read_rank(from: &mut Cursor<'_>) -> Result<u8, ReadFault>
    ensures { Finds result from.new (entries.rank_at from.old) }
{
    let left = from.left();
    let rank = from.byte()?;
    if 1 <= rank && rank <= 8 {
        Ok(rank)
    } else {
        Err(wrong(left, FaultKind::Tag))
    }
}

fn read_indexes(alloc: Global, from: &mut Cursor<'_>) -> Result<Items<u16>, ReadFault>
    ensures { Finds result from.new (table entries.rank_at half_at from.old) }
{
    let rank = read_rank(from)?;
    read_many(alloc, u32::from(rank), from)
}

#[tactic(auto, unfolding(crate::specs::Entries::array_at))]
fn read_array(alloc: Global, from: &mut Cursor<'_>) -> Result<ImageType, ReadFault>
    ensures { Finds result from.new (entries.array_at from.old) }
{
    let dynamic = from.truth()?;
    let indexes = read_indexes(alloc, from)?;
    match from.half() {
        Ok(cell) => Ok(ImageType::Array {
            dynamic,
            indexes,
            cell,
        }),
        Err(fault) => Err(fault),
    }
}

fn read_set(from: &mut Cursor<'_>) -> Result<ImageType, ReadFault>
    ensures { Finds result from.new (entries.parts_at TypeTag.Set from.old) }
{
    let member = from.half()?;
    Ok(ImageType::Set(member))
}

fn read_list(from: &mut Cursor<'_>) -> Result<ImageType, ReadFault>
    ensures { Finds result from.new (entries.parts_at TypeTag.List from.old) }
{
    let member = from.half()?;
    Ok(ImageType::List(member))
}

fn read_record(alloc: Global, from: &mut Cursor<'_>) -> Result<ImageType, ReadFault>
    ensures { Finds result from.new (entries.parts_at TypeTag.Record from.old) }
{
    let fields = read_short_table(alloc, from)?;
    Ok(ImageType::Record(fields))
}

fn read_parts(alloc: Global, tag: TypeTag, from: &mut Cursor<'_>) -> Result<ImageType, ReadFault>
    ensures { Finds result from.new (entries.parts_at tag from.old) }
{
    match tag {
        TypeTag::Integer => Ok(ImageType::Integer),
        TypeTag::Boolean => Ok(ImageType::Boolean),
        TypeTag::Str => Ok(ImageType::Str),
        TypeTag::Model => Ok(ImageType::Model),
        TypeTag::Event => Ok(ImageType::Event),
        TypeTag::Range => Ok(ImageType::Range),
        TypeTag::Set => read_set(from),
        TypeTag::List => read_list(from),
        TypeTag::Array => read_array(alloc, from),
        TypeTag::Record => read_record(alloc, from),
    }
}

#[tactic(auto, unfolding(crate::specs::Entries::type_at))]
impl Decode for ImageType {
    ghost use Rattle.bim_read.specs.Entries.{type_at};

    ghost reading = { type_at };

    fn read(alloc: Global, from: &mut Cursor<'_>) -> Result<ImageType, ReadFault> {
        let left = from.left();
        match type_tag_of(from.byte()?) {
            Some(tag) => read_parts(alloc, tag, from),
            None => Err(wrong(left, FaultKind::Tag)),
        }
    }
}

/// The tags of defaults, from 1 on.
#[derive(Clone, Copy, PartialEq, Debug, Drop)]
pub enum DefaultTag {
    Number,
    Truth,
    Constant,
}

fn default_tag_of(number: u8) -> Option<DefaultTag>
    ensures { result ≡ entries.default_tag_of number }
{
    match number {
        1 => Some(DefaultTag::Number),
        2 => Some(DefaultTag::Truth),
        3 => Some(DefaultTag::Constant),
        _ => None,
    }
}

fn read_default_of(tag: DefaultTag, from: &mut Cursor<'_>) -> Result<Default, ReadFault>
    ensures { Finds result from.new (entries.default_of tag from.old) }
{
    match tag {
        DefaultTag::Number => Ok(Default::Number(from.integer()?)),
        DefaultTag::Truth => Ok(Default::Truth(from.truth()?)),
        DefaultTag::Constant => Ok(Default::Constant(from.word()?)),
    }
}

#[tactic(auto, unfolding(crate::specs::Entries::default_at))]
fn read_default(from: &mut Cursor<'_>) -> Result<Default, ReadFault>
    ensures { Finds result from.new (entries.default_at from.old) }
{
    let left = from.left();
    match default_tag_of(from.byte()?) {
        Some(tag) => read_default_of(tag, from),
        None => Err(wrong(left, FaultKind::Tag)),
    }
}

#[tactic(auto, unfolding(crate::specs::Entries::parameter_at))]
impl Decode for Parameter {
    ghost use Rattle.bim_read.specs.Entries.{parameter_at};

    ghost reading = { parameter_at };

    fn read(_alloc: Global, from: &mut Cursor<'_>) -> Result<Parameter, ReadFault> {
        let name = from.word()?;
        let slot = from.word()?;
        let default = read_default(from)?;
        Ok(Parameter {
            name,
            slot,
            default,
        })
    }
}

#[tactic(auto, unfolding(crate::specs::Entries::slot_at))]
impl Decode for Slot {
    ghost use Rattle.bim_read.specs.Entries.{slot_at};

    ghost reading = { slot_at };

    fn read(_alloc: Global, from: &mut Cursor<'_>) -> Result<Slot, ReadFault> {
        let typ = from.half()?;
        let by_reference = from.truth()?;
        Ok(Slot { typ, by_reference })
    }
}

fn result_of(number: u16) -> Option<u16>
    ensures { result ≡ entries.result_of number }
{
    if number == 65535 { None } else { Some(number) }
}

#[tactic(auto, unfolding(crate::specs::Entries::routine_at))]
impl Decode for Routine {
    ghost use Rattle.bim_read.specs.Entries.{routine_at};

    ghost reading = { routine_at };

    fn read(alloc: Global, from: &mut Cursor<'_>) -> Result<Routine, ReadFault> {
        let address = from.word()?;
        let arguments = from.half()?;
        let slots = read_short_table(alloc, from)?;
        match from.half() {
            Ok(number) => Ok(Routine {
                address,
                arguments,
                slots,
                result: result_of(number),
            }),
            Err(fault) => Err(fault),
        }
    }
}

fn form_of(number: u8) -> Option<Form>
    ensures { result ≡ entries.form_of number }
{
    match number {
        0 => Some(Form::Value),
        1 => Some(Form::Place),
        2 => Some(Form::Walk),
        _ => None,
    }
}

fn read_form(from: &mut Cursor<'_>) -> Result<Form, ReadFault>
    ensures { Finds result from.new (entries.form_at from.old) }
{
    let left = from.left();
    match form_of(from.byte()?) {
        Some(form) => Ok(form),
        None => Err(wrong(left, FaultKind::Tag)),
    }
}

#[tactic(auto, unfolding(crate::specs::Entries::operand_at))]
impl Decode for Operand {
    ghost use Rattle.bim_read.specs.Entries.{operand_at};

    ghost reading = { operand_at };

    fn read(_alloc: Global, from: &mut Cursor<'_>) -> Result<Operand, ReadFault> {
        let typ = from.half()?;
        let form = read_form(from)?;
        Ok(Operand { typ, form })
    }
}

#[tactic(auto, unfolding(crate::specs::Entries::point_at))]
impl Decode for Point {
    ghost use Rattle.bim_read.specs.Entries.{point_at};

    ghost reading = { point_at };

    fn read(alloc: Global, from: &mut Cursor<'_>) -> Result<Point, ReadFault> {
        let address = from.word()?;
        let stack = read_short_table(alloc, from)?;
        Ok(Point { address, stack })
    }
}
