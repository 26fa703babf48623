//! Bytes are read and verified.
ghost use Rattle.std.specs.Prelude.{◌≡◌, ◌≤◌, ◌+◌, ℕ, List, Ok, IfOk, IfErr, length};
ghost use Rattle.bim_code.specs.Limits.{WithinLimits};
ghost use Rattle.bim_code.specs.Tables.{image_bytes};
ghost use Rattle.bim_code.specs.declared.image.Image.{Image};
ghost use Rattle.bim_list.specs.Listing.{listing};
ghost use Rattle.bim_read.specs.Images.{IsFaultIn, IsStorable, image_from};
ghost use Rattle.bim_verify.specs.Verified as verifier;
ghost use Rattle.bim_open.specs.Opened.{IsVerified, IsFaultOf};

use bim_code::laws::limits_fit_fields;
use bim_list::list_code;
use bim_read::{ImageFault, read_image};
use bim_verify::{Verified, VerifyFault, verify};
use mos_text::{Blob, NoMemory};
use std::alloc::Global;

/// Why bytes are no verified image.
#[derive(Clone, Copy, PartialEq, Debug, Drop)]
pub enum OpenFault {
    /// Bytes that are no image: the first byte of the first wrong field, or the length where bytes are missing, and the
    /// kind of the fault, 1 to 8. An image that breaks a rule: the first place that breaks the least rule, and 101 to 110.
    BadInput { at: u32, rule: u32 },
    NoMemory,
}

impl From<NoMemory> for OpenFault {
    ghost use Rattle.std.specs.Prelude.{◌≡◌};
    ghost use Rattle.bim_open.specs.declared.open.OpenFault.TheVariants.{NoMemory};

    ghost from_gives = { λ _ fault. fault ≡ NoMemory };

    fn from(_refused: NoMemory) -> OpenFault {
        OpenFault::NoMemory
    }
}

/// The number of a rule among the faults of a file.
fn above_kinds(rule: u32) -> u32
    ensures { rule ≤ 10 → result ≡ 100 + rule }
{
    rule.saturating_add(100)
}

/// What the reader says, as the fault of a file.
fn unread(fault: ImageFault) -> OpenFault
    ensures { (bytes : List ℕ) → IsFaultIn bytes fault (image_from bytes) → IsFaultOf bytes result }
{
    match fault {
        ImageFault::BadImage { at, kind } => OpenFault::BadInput { at, rule: kind },
        ImageFault::NoMemory => OpenFault::NoMemory,
    }
}

/// What the verifier says, likewise.
fn refused(fault: VerifyFault) -> OpenFault
    ensures { (bytes : List ℕ) (image : Image) → image_from bytes ≡ Ok image → verifier.IsFaultOf image fault
        → IsFaultOf bytes result }
{
    match fault {
        VerifyFault::Rejected { at, rule } => OpenFault::BadInput {
            at,
            rule: above_kinds(rule),
        },
        VerifyFault::NoMemory => OpenFault::NoMemory,
    }
}

/// The image that the bytes of a file are, all of them, verified.
pub fn open_image(alloc: Global, bytes: &[u8]) -> Result<Verified, OpenFault>
    requires { length bytes.now ≤ 268435456 }
    // The bytes are this image, and it keeps all rules.
    ensures verified { IfOk result (IsVerified bytes.now) }
    // A file can hold it, and has these bytes then.
    ensures stored { IfOk result (λ image. IsStorable image × (bytes.now ≡ image_bytes image)) }
    // The first fault.
    ensures fault { IfErr result (IsFaultOf bytes.now) }
{
    match read_image(alloc, bytes) {
        Ok(image) => match verify(alloc, image) {
            Ok(verified) => Ok(verified),
            Err(fault) => Err(refused(fault)),
        },
        Err(fault) => Err(unread(fault)),
    }
}

/// The listing of the verified image that the bytes of a file are.
pub fn list_image(alloc: Global, bytes: &[u8]) -> Result<Blob, OpenFault>
    requires { length bytes.now ≤ 268435456 }
    ensures listed { IfOk result (λ text. (image : Image) × IsVerified bytes.now image × (text ≡ listing image)) }
    ensures fault { IfErr result (IsFaultOf bytes.now) }
{
    let verified = open_image(alloc, bytes)?;
    limits_fit_fields(verified.image());
    Ok(list_code(alloc, verified.image())?)
}
