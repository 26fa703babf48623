//! What has bytes of its own in an image's file, and tables of it.
ghost use Rattle.std.specs.Prelude.{◌≡◌, ◌<◌, ◌^◌, ◌++◌, List, ℕ, length, flat_map, All, OnOk};
ghost use Rattle.bim_code.specs.Bytes.{long_table, short_table};

use super::numbers::{put_u16, put_u32};
use std::alloc::AllocError;

/// An entry of a table of the image.
pub trait Encode {
    ghost encoding: { Self → List ℕ };

    ghost InField: { Self → Type 0 };

    /// Writes the entry's bytes. Its own counts fit their fields.
    fn write(&self, out: &mut Vec<u8>) -> Result<(), AllocError>
        requires { InField self.now }
        ensures { OnOk result (out.new.items ≡ out.old.items ++ encoding self.now) };
}

/// Each entry, in order.
pub fn put_all<T: Encode>(out: &mut Vec<u8>, entries: &[T]) -> Result<(), AllocError>
    requires { All T.InField entries.now }
    ensures { OnOk result (out.new.items ≡ out.old.items ++ flat_map T.encoding entries.now) }
{
    for entry in entries {
        entry.write(out)?;
    }
    Ok(())
}

/// The number of entries in 16 bits, then each.
pub fn put_short_table<T: Encode>(out: &mut Vec<u8>, entries: &[T]) -> Result<(), AllocError>
    requires count { length entries.now < 2 ^ 16 }
    requires each { All T.InField entries.now }
    ensures { OnOk result (out.new.items ≡ out.old.items ++ short_table T.encoding entries.now) }
{
    put_u16(out, entries.len() as u16)?;
    put_all(out, entries)
}

/// The number of entries in 32 bits, then each.
pub fn put_long_table<T: Encode>(out: &mut Vec<u8>, entries: &[T]) -> Result<(), AllocError>
    requires count { length entries.now < 2 ^ 32 }
    requires each { All T.InField entries.now }
    ensures { OnOk result (out.new.items ≡ out.old.items ++ long_table T.encoding entries.now) }
{
    put_u32(out, entries.len() as u32)?;
    put_all(out, entries)
}
