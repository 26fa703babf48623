//! The bytes of each kind of entry.
ghost use Rattle.std.specs.Prelude.{◌≡◌, ◌<◌, ◌^◌, ◌∷◌, ◌++◌, length, OnOk};
ghost use Rattle.bim_code.specs.Bytes.{u16_bytes};
ghost use Rattle.bim_code.specs.Tables.{array_bytes, form_number, result_number};

use super::encode::{Encode, put_all, put_short_table};
use super::numbers::{put_i32, put_u16, put_u32};
use bim_code::{Default, Field, Form, ImageType, Operand, Parameter, Point, Routine, Slot};
use mos_text::Text;
use std::alloc::AllocError;

impl Encode for u16 {
    ghost use Rattle.bim_code.specs.Bytes.{u16_bytes};

    ghost encoding = { u16_bytes };

    ghost InField = { λ _. Unit {0} };

    fn write(&self, out: &mut Vec<u8>) -> Result<(), AllocError> {
        put_u16(out, *self)
    }
}

#[tactic(auto, unfolding(bim_code::specs::Tables::constant_bytes))]
impl Encode for Text {
    ghost use Rattle.std.specs.Prelude.{◌<◌, ◌^◌, length};
    ghost use Rattle.bim_code.specs.Tables.{constant_bytes};

    ghost encoding = { constant_bytes };

    ghost InField = { λ text. length text < 2 ^ 32 };

    fn write(&self, out: &mut Vec<u8>) -> Result<(), AllocError> {
        let bytes = self.as_bytes();
        put_u32(out, bytes.len() as u32)?;
        out.extend_from_slice(bytes)
    }
}

#[tactic(auto, unfolding(bim_code::specs::Tables::field_bytes))]
impl Encode for Field {
    ghost use Rattle.bim_code.specs.Tables.{field_bytes};

    ghost encoding = { field_bytes };

    ghost InField = { λ _. Unit {0} };

    fn write(&self, out: &mut Vec<u8>) -> Result<(), AllocError> {
        put_u32(out, self.name)?;
        put_u16(out, self.typ)
    }
}

#[tactic(auto, unfolding(bim_code::specs::Tables::type_bytes))]
impl Encode for ImageType {
    ghost use Rattle.bim_code.specs.Limits.{TypeInRange};
    ghost use Rattle.bim_code.specs.Tables.{type_bytes};

    ghost encoding = { type_bytes };

    ghost InField = { TypeInRange };

    fn write(&self, out: &mut Vec<u8>) -> Result<(), AllocError> {
        match self {
            ImageType::Integer => out.push(1)?,
            ImageType::Boolean => out.push(2)?,
            ImageType::Str => out.push(3)?,
            ImageType::Model => out.push(4)?,
            ImageType::Event => out.push(5)?,
            ImageType::Range => out.push(6)?,
            ImageType::Set(member) => put_tagged(out, 7, *member)?,
            ImageType::List(member) => put_tagged(out, 8, *member)?,
            ImageType::Array {
                dynamic,
                indexes,
                cell,
            } => {
                out.push(9)?;
                put_array(out, *dynamic, indexes.as_slice(), *cell)?
            }
            ImageType::Record(fields) => {
                out.push(10)?;
                put_short_table(out, fields.as_slice())?
            }
        }
        Ok(())
    }
}

/// A tag and the type that it goes with.
fn put_tagged(out: &mut Vec<u8>, tag: u8, typ: u16) -> Result<(), AllocError>
    ensures { OnOk result (out.new.items ≡ out.old.items ++ tag ∷ u16_bytes typ) }
{
    out.push(tag)?;
    put_u16(out, typ)
}

/// What stands behind the tag of an array.
#[tactic(auto, unfolding(bim_code::specs::Tables::array_bytes))]
fn put_array(out: &mut Vec<u8>, dynamic: bool, indexes: &[u16], cell: u16) -> Result<(), AllocError>
    requires { length indexes.now < 2 ^ 8 }
    ensures { OnOk result (out.new.items ≡ out.old.items ++ array_bytes dynamic indexes.now cell) }
{
    out.push(dynamic as u8)?;
    out.push(indexes.len() as u8)?;
    put_all(out, indexes)?;
    put_u16(out, cell)
}

#[tactic(auto, unfolding(bim_code::specs::Tables::default_bytes))]
impl Encode for Default {
    ghost use Rattle.bim_code.specs.Tables.{default_bytes};

    ghost encoding = { default_bytes };

    ghost InField = { λ _. Unit {0} };

    fn write(&self, out: &mut Vec<u8>) -> Result<(), AllocError> {
        match *self {
            Default::Number(number) => {
                out.push(1)?;
                put_i32(out, number)
            }
            Default::Truth(flag) => {
                out.push(2)?;
                Ok(out.push(flag as u8)?)
            }
            Default::Constant(constant) => {
                out.push(3)?;
                put_u32(out, constant)
            }
        }
    }
}

#[tactic(auto, unfolding(bim_code::specs::Tables::parameter_bytes))]
impl Encode for Parameter {
    ghost use Rattle.bim_code.specs.Tables.{parameter_bytes};

    ghost encoding = { parameter_bytes };

    ghost InField = { λ _. Unit {0} };

    fn write(&self, out: &mut Vec<u8>) -> Result<(), AllocError> {
        put_u32(out, self.name)?;
        put_u32(out, self.slot)?;
        self.default.write(out)
    }
}

#[tactic(auto, unfolding(bim_code::specs::Tables::slot_bytes))]
impl Encode for Slot {
    ghost use Rattle.bim_code.specs.Tables.{slot_bytes};

    ghost encoding = { slot_bytes };

    ghost InField = { λ _. Unit {0} };

    fn write(&self, out: &mut Vec<u8>) -> Result<(), AllocError> {
        put_u16(out, self.typ)?;
        Ok(out.push(self.by_reference as u8)?)
    }
}

#[tactic(auto, unfolding(bim_code::specs::Tables::routine_bytes))]
impl Encode for Routine {
    ghost use Rattle.std.specs.Prelude.{◌<◌, ◌^◌, length};
    ghost use Rattle.bim_code.specs.Tables.{routine_bytes};

    ghost encoding = { routine_bytes };

    ghost InField = { λ routine. length routine.slots < 2 ^ 16 };

    fn write(&self, out: &mut Vec<u8>) -> Result<(), AllocError> {
        put_u32(out, self.address)?;
        put_u16(out, self.arguments)?;
        put_short_table(out, self.slots.as_slice())?;
        put_u16(out, result_number(self.result))
    }
}

/// The number of a result's type, or 65,535 where there is none.
fn result_number(result_type: Option<u16>) -> u16
    ensures { result ≡ result_number result_type }
{
    match result_type {
        Some(typ) => typ,
        None => 65_535,
    }
}

#[tactic(auto, unfolding(bim_code::specs::Tables::operand_bytes))]
impl Encode for Operand {
    ghost use Rattle.bim_code.specs.Tables.{operand_bytes};

    ghost encoding = { operand_bytes };

    ghost InField = { λ _. Unit {0} };

    fn write(&self, out: &mut Vec<u8>) -> Result<(), AllocError> {
        put_u16(out, self.typ)?;
        Ok(out.push(form_number(self.form))?)
    }
}

/// The number of a form.
fn form_number(form: Form) -> u8
    ensures { result ≡ form_number form }
{
    match form {
        Form::Value => 0,
        Form::Place => 1,
        Form::Walk => 2,
    }
}

#[tactic(auto, unfolding(bim_code::specs::Tables::point_bytes))]
impl Encode for Point {
    ghost use Rattle.std.specs.Prelude.{◌<◌, ◌^◌, length};
    ghost use Rattle.bim_code.specs.Tables.{point_bytes};

    ghost encoding = { point_bytes };

    ghost InField = { λ point. length point.stack < 2 ^ 16 };

    fn write(&self, out: &mut Vec<u8>) -> Result<(), AllocError> {
        put_u32(out, self.address)?;
        put_short_table(out, self.stack.as_slice())
    }
}
