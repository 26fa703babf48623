//! The whole file of an image.
ghost use Rattle.std.specs.Prelude.{◌≡◌, ◌≤◌, Ok, IfOk, length, Result};
ghost use Rattle.bim_code.specs.Tables.{image_bytes};
ghost use Rattle.bim_code.specs.declared.image.Image.{Image};
ghost use Rattle.bim_read.specs.declared.fault.Bad.{Bad};
ghost use Rattle.bim_read.specs.Reading.{Fails, Fills, Finds, Gives, Puts};
ghost use Rattle.bim_read.specs.Images as images;
ghost use Rattle.bim_read.specs.Images.{IsFoundIn, IsStorable};

use crate::code::read_code;
use crate::cursor::{Cursor, wrong};
use crate::decode::{read_long_table, read_short_table, read_word_table};
use crate::fault::{FaultKind, ReadFault};
use bim_code::Image;
use sqlite_items::Items;
use std::alloc::Global;

/// Why bytes are not read.
#[derive(Clone, Copy, PartialEq, Debug, Drop)]
pub enum ImageFault {
    /// The first byte of the first wrong field, or the length of the file where bytes are missing, and
    /// the kind of the fault, 1 to 8.
    BadImage { at: u32, kind: u32 },
    NoMemory,
}

fn read_letters(from: &mut Cursor<'_>) -> Result<u32, ReadFault>
    ensures { Finds result from.new (images.letters_at from.old) }
{
    let left = from.left();
    let number = from.word()?;
    if number == 0x4d42494d {
        Ok(number)
    } else {
        Err(wrong(left, FaultKind::Letters))
    }
}

fn read_version(from: &mut Cursor<'_>) -> Result<u16, ReadFault>
    ensures { Finds result from.new (images.version_at from.old) }
{
    let left = from.left();
    let number = from.half()?;
    if number == 1 {
        Ok(number)
    } else {
        Err(wrong(left, FaultKind::Version))
    }
}

#[tactic(auto, unfolding(crate::specs::Images::heading_at))]
fn read_heading(from: &mut Cursor<'_>) -> Result<u16, ReadFault>
    ensures { Finds result from.new (images.heading_at from.old) }
{
    let _letters = read_letters(from)?;
    read_version(from)
}

/// Constants, types, parameters and globals.
#[tactic(auto, unfolding(crate::specs::Images::variables_at))]
fn read_variables(alloc: Global, image: &mut Image, from: &mut Cursor<'_>) -> Result<(), ReadFault>
    ensures { Puts result
        (image.new.constants, (image.new.types, (image.new.params, image.new.globals)))
        from.new (images.variables_at from.old) }
{
    image.constants = read_long_table(alloc, 65536, from)?;
    image.types = read_short_table(alloc, from)?;
    image.params = read_short_table(alloc, from)?;
    image.globals = read_long_table(alloc, 65536, from)?;
    Ok(())
}

/// Routines, points and code.
#[tactic(auto, unfolding(crate::specs::Images::routines_at))]
fn read_routines(alloc: Global, image: &mut Image, from: &mut Cursor<'_>) -> Result<(), ReadFault>
    ensures found { Puts result (image.new.routines, (image.new.points, image.new.code))
        from.new (images.routines_at from.old) }
    ensures constants { image.new.constants ≡ image.old.constants }
    ensures types { image.new.types ≡ image.old.types }
    ensures params { image.new.params ≡ image.old.params }
    ensures globals { image.new.globals ≡ image.old.globals }
{
    image.routines = read_short_table(alloc, from)?;
    image.points = read_word_table(alloc, from)?;
    image.code = read_code(alloc, from)?;
    Ok(())
}

fn blank(alloc: Global) -> Image {
    Image {
        constants: Items::new(alloc),
        types: Items::new(alloc),
        params: Items::new(alloc),
        globals: Items::new(alloc),
        routines: Items::new(alloc),
        points: Items::new(alloc),
        code: Items::new(alloc),
    }
}

/// The tables behind the heading.
fn read_tables(alloc: Global, image: &mut Image, from: &mut Cursor<'_>) -> Result<(), ReadFault>
    ensures { Puts result image.new from.new (images.tables_at from.old) }
{
    read_variables(alloc, image, from)?;
    read_routines(alloc, image, from)
}

#[tactic(auto, unfolding(crate::specs::Images::image_at))]
fn read_parts(alloc: Global, image: &mut Image, from: &mut Cursor<'_>) -> Result<(), ReadFault>
    ensures { Puts result image.new from.new (images.image_at from.old) }
{
    let _version = read_heading(from)?;
    read_tables(alloc, image, from)
}

fn ended(from: &Cursor<'_>) -> Result<(), ReadFault>
    ensures { (image : Image) → Fills result image (images.with_end image from.now) }
{
    let left = from.left();
    if left == 0 {
        Ok(())
    } else {
        Err(wrong(left, FaultKind::Behind))
    }
}

/// The whole, up to the end of the bytes.
#[tactic(auto, unfolding(crate::specs::Images::image_from))]
fn read_whole(alloc: Global, image: &mut Image, bytes: &[u8]) -> Result<(), ReadFault>
    ensures { Fills result image.new (images.image_from bytes.now) }
{
    let mut from = Cursor::new(bytes);
    read_parts(alloc, image, &mut from)?;
    ended(&from)
}

fn read_all(alloc: Global, bytes: &[u8]) -> Result<Image, ReadFault>
    ensures { Gives result (images.image_from bytes.now) }
{
    let mut image = blank(alloc);
    match read_whole(alloc, &mut image, bytes) {
        Ok(()) => Ok(image),
        Err(fault) => Err(fault),
    }
}

fn fault_in(bytes: &[u8], fault: ReadFault) -> ImageFault
    requires { length bytes.now ≤ 268435456 }
    ensures { (found : Result Image Bad) → Fails fault found → images.IsFaultIn bytes.now result found }
{
    match fault {
        ReadFault::Wrong(bad) => ImageFault::BadImage {
            at: bytes.len().saturating_sub(bad.left) as u32,
            kind: bad.kind.number(),
        },
        ReadFault::NoMemory => ImageFault::NoMemory,
    }
}

/// The image that the bytes of a file are, all of them.
pub fn read_image(alloc: Global, bytes: &[u8]) -> Result<Image, ImageFault>
    requires { length bytes.now ≤ 268435456 }
    // What is read has these bytes, and a file can hold it.
    ensures found { IfOk result (λ image. IsStorable image × (bytes.now ≡ image_bytes image)) }
    // The bytes of an image that a file can hold are read as that image.
    ensures only { (image : Image) → IsStorable image → bytes.now ≡ image_bytes image
        → IsFoundIn bytes.now result (Ok image) }
    // Which fault it is.
    ensures exact { IsFoundIn bytes.now result (images.image_from bytes.now) }
{
    match read_all(alloc, bytes) {
        Ok(image) => Ok(image),
        Err(fault) => Err(fault_in(bytes, fault)),
    }
}
