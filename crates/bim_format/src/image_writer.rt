//! An image as the bytes of its file. Each kind of entry knows its own bytes; each table writes its
//! count and then its entries.
ghost use Rattle.std.specs.Prelude.{◌≡◌, ◌++◌, IfOk, OnOk};
ghost use Rattle.bim_code.specs.Tables.{heading_bytes, image_bytes};
ghost use Rattle.bim_code.specs.Limits.{CountsInRange};

use bim_code::Image;
use mos_text::{Blob, NoMemory};
use std::alloc::{AllocError, Global};

mod code;
mod encode;
mod entries;
mod numbers;

use code::put_code;
use encode::{put_long_table, put_short_table};
use numbers::put_u16;

/// The bytes of the image's file. Each count fits its field, as in every image that keeps the
/// limits of the format.
#[tactic(auto, unfolding(bim_code::specs::Tables::image_bytes))]
pub fn write_image(alloc: Global, image: &Image) -> Result<Blob, NoMemory>
    requires { CountsInRange image.now }
    ensures { IfOk result (λ bytes. bytes ≡ image_bytes image.now) }
{
    let mut out = Vec::new(alloc);
    put_heading(&mut out)?;
    put_long_table(&mut out, image.constants.as_slice())?;
    put_short_table(&mut out, image.types.as_slice())?;
    put_short_table(&mut out, image.params.as_slice())?;
    put_long_table(&mut out, image.globals.as_slice())?;
    put_short_table(&mut out, image.routines.as_slice())?;
    put_long_table(&mut out, image.points.as_slice())?;
    put_code(&mut out, image.code.as_slice())?;
    Ok(Blob::from_vec(out))
}

/// The letters MBIM and the version.
#[tactic(auto, unfolding(bim_code::specs::Tables::heading_bytes))]
fn put_heading(out: &mut Vec<u8>) -> Result<(), AllocError>
    ensures { OnOk result (out.new.items ≡ out.old.items ++ heading_bytes) }
{
    out.extend_from_slice(b"MBIM")?;
    put_u16(out, 1)
}
