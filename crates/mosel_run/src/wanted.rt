//! The files that a command wants, read in order.
ghost use Rattle.std.specs.Prelude.{◌≡◌, ◌≤◌, IfOk};
ghost use Rattle.mosel_run.specs.Reading.{IsReadOf};
ghost use Rattle.mosel_run.specs.States.{folder_of};

use mos_text::{Blob, Folder, Got, NoMemory, Text};
use sqlite_items::Items;
use std::alloc::Global;

/// A file that a command wants: its name, and the most bytes that it may have.
#[derive(Debug, Drop)]
pub struct Wanted {
    pub name: Text,
    pub limit: u32,
}

/// Why the folder did not give a file.
#[derive(Clone, Copy, Debug)]
pub(crate) enum Lack {
    /// There is no file of this name.
    Missing,
    /// The file is longer than its limit.
    TooLarge,
    /// The folder failed.
    Failed,
}

/// How the wanted files were read.
#[derive(Debug, Drop)]
pub(crate) enum Read {
    /// All of them, with these bytes.
    All(Items<Blob>),
    /// Up to this one, which the folder did not give.
    Unread { name: Text, lack: Lack },
}

/// Reads the files in order, up to the first that the folder does not give.
pub(crate) fn read_all<F: Folder>(
    alloc: Global,
    wanted: &[Wanted],
    folder: &mut F,
) -> Result<Read, NoMemory>
    ensures read { IfOk result (IsReadOf wanted.now
        (folder_of F.Folder folder.old) (folder_of F.Folder folder.new)) }
    ensures content { F.content folder.new ≡ F.content folder.old }
    ensures later { F.faults folder.old ≤ F.faults folder.new }
{
    let mut sources = Items::new(alloc);
    for file in wanted {
        match folder.get(alloc, &file.name, file.limit) {
            Got::Bytes(bytes) => sources.push(bytes)?,
            Got::Missing => return unread(alloc, file, Lack::Missing),
            Got::TooLarge => return unread(alloc, file, Lack::TooLarge),
            Got::Failed => return unread(alloc, file, Lack::Failed),
            Got::NoMemory => return Err(NoMemory),
        }
    }
    Ok(Read::All(sources))
}

fn unread(alloc: Global, file: &Wanted, lack: Lack) -> Result<Read, NoMemory>
    ensures { IfOk result (λ read. read ≡ Read.Unread file.now.name lack) }
{
    let name = file.name.copy(alloc)?;
    Ok(Read::Unread { name, lack })
}
