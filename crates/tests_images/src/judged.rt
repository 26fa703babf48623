//! What the reader and the verifier say of bytes.
ghost use Rattle.bim_code.specs.Limits.{WithinLimits};

use bim_code::Image;
use bim_open::{OpenFault, list_image};
use bim_read::{ImageFault, read_image};
use bim_verify::{VerifyFault, verify};
use mos_text::NoMemory;
use std::alloc::Global;

/// What is said of bytes. A file that is longer than any image is one of kind 0.
#[derive(Clone, Copy)]
pub enum Answer {
    Verified,
    Bad { at: u32, kind: u32 },
    Rejected { at: u32, rule: u32 },
}

fn counts_of(alloc: Global, image: &Image) -> Result<String, NoMemory> {
    let (constants, types, params) = (image.constants.len(), image.types.len(), image.params.len());
    let (globals, routines, points) = (
        image.globals.len(),
        image.routines.len(),
        image.points.len(),
    );
    let code = image.code.len();
    Ok(format!(in alloc; "read {constants} {types} {params} {globals} {routines} {points} {code}")?)
}

/// What the reader says: how many entries each table has, and how many instructions there are, or the fault.
pub fn counted(alloc: Global, bytes: &[u8]) -> Result<String, NoMemory> {
    if bytes.len() > 268435456 {
        return Ok(String::from_str(alloc, "too long")?);
    }
    match read_image(alloc, bytes) {
        Ok(image) => counts_of(alloc, &image),
        Err(ImageFault::BadImage { at, kind }) => Ok(format!(in alloc; "kind {kind} at {at}")?),
        Err(ImageFault::NoMemory) => Err(NoMemory),
    }
}

fn judged_image(alloc: Global, image: Image) -> Result<Answer, NoMemory>
    requires { WithinLimits image }
{
    match verify(alloc, image) {
        Ok(_verified) => Ok(Answer::Verified),
        Err(VerifyFault::Rejected { at, rule }) => Ok(Answer::Rejected { at, rule }),
        Err(VerifyFault::NoMemory) => Err(NoMemory),
    }
}

/// What both say.
pub fn judged(alloc: Global, bytes: &[u8]) -> Result<Answer, NoMemory> {
    if bytes.len() > 268435456 {
        return Ok(Answer::Bad { at: 0, kind: 0 });
    }
    match read_image(alloc, bytes) {
        Ok(image) => judged_image(alloc, image),
        Err(ImageFault::BadImage { at, kind }) => Ok(Answer::Bad { at, kind }),
        Err(ImageFault::NoMemory) => Err(NoMemory),
    }
}

/// The listing of a verified image, a bar for each newline, or the fault by its number.
pub fn listed(alloc: Global, bytes: &[u8]) -> Result<String, NoMemory> {
    if bytes.len() > 268435456 {
        return Ok(String::from_str(alloc, "too long")?);
    }
    match list_image(alloc, bytes) {
        Ok(text) => in_one_line(alloc, text.as_bytes()),
        Err(OpenFault::BadInput { at, rule }) => Ok(format!(in alloc; "at {at}, rule {rule}")?),
        Err(OpenFault::NoMemory) => Err(NoMemory),
    }
}

/// Bytes with a bar in place of each newline.
fn in_one_line(alloc: Global, bytes: &[u8]) -> Result<String, NoMemory> {
    let mut text = String::new(alloc);
    for byte in bytes {
        match *byte {
            b'\n' => text.push('|')?,
            other => text.push(other as char)?,
        }
    }
    Ok(text)
}
