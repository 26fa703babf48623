//! The folder of the system, as a place that keeps files.
ghost use Rattle.std.specs.Prelude.{◌≡◌, ◌≢◌, ◌≤◌, None};
ghost use Rattle.mos_text.specs.Content.{Unknown};
ghost use Rattle.mos_text.specs.Faults.{Rose};
ghost use Rattle.mos_text.specs.Gets.{Answers};

use crate::{Blob, Folder, Got, Stored, Text};
use std::alloc::Global;
use std::io::{ErrorKind, Read};
use std::rt::Files;
use std::{fs, io};

/// The files under the current folder of the process. Nothing is known of its content to a
/// contract.
///
/// Only a name that is not there is missing; a folder in its place, or a file that may not be read,
/// is a fault.
#[derive(Drop)]
pub struct DirFolder<'a, R: Files> {
    rt: &'a R,
    faults: u64,
}

impl<'a, R: Files> DirFolder<'a, R> {
    /// A folder that has not failed yet.
    pub fn new(rt: &'a R) -> DirFolder<'a, R>
        ensures { ⟦<DirFolder<'a, R> as Folder>⟧.faults result ≡ 0 }
    {
        DirFolder { rt, faults: 0 }
    }

    /// How often the folder has failed.
    pub fn faults(&self) -> u64
        ensures { result ≡ ⟦<DirFolder<'a, R> as Folder>⟧.faults self.now }
    {
        self.faults
    }
}

/// The first bytes of the file, one more than the limit where there are so many.
fn read_start<R: Files>(rt: &R, alloc: Global, name: &str, limit: u32) -> io::Result<Vec<u8>> {
    let mut bytes = Vec::new(alloc);
    let mut start = fs::open(rt, name)?.take(u64::from(limit) + 1);
    start.read_to_end(&mut bytes)?;
    Ok(bytes)
}

impl<'a, R: Files> Folder for DirFolder<'a, R> {
    ghost content = { λ _. None };

    ghost faults = { λ f. f.faults };

    fn get(&mut self, alloc: Global, name: &Text, limit: u32) -> Got
        ensures answer { Answers Unknown limit result }
        ensures later { ⟦<DirFolder<'a, R> as Folder>⟧.faults self.old
            ≤ ⟦<DirFolder<'a, R> as Folder>⟧.faults self.new }
        ensures failed { result ≡ Got.Failed
            → Rose (⟦<DirFolder<'a, R> as Folder>⟧.faults self.old) (⟦<DirFolder<'a, R> as Folder>⟧.faults self.new) }
        ensures steady { result ≢ Got.Failed
            → ⟦<DirFolder<'a, R> as Folder>⟧.faults self.new ≡ ⟦<DirFolder<'a, R> as Folder>⟧.faults self.old }
    {
        match read_start(self.rt, alloc, name.as_str(), limit) {
            Ok(bytes) if bytes.len() > limit as usize => Got::TooLarge,
            Ok(bytes) => Got::Bytes(Blob::from_vec(bytes)),
            Err(error) => match error.kind() {
                ErrorKind::NotFound => Got::Missing,
                ErrorKind::OutOfMemory => Got::NoMemory,
                _ => {
                    self.faults = self.faults.saturating_add(1);
                    Got::Failed
                }
            },
        }
    }

    fn put(&mut self, _alloc: Global, name: &Text, bytes: &[u8]) -> Stored
        ensures later { ⟦<DirFolder<'a, R> as Folder>⟧.faults self.old
            ≤ ⟦<DirFolder<'a, R> as Folder>⟧.faults self.new }
        ensures failed { result ≡ Stored.Failed
            → Rose (⟦<DirFolder<'a, R> as Folder>⟧.faults self.old) (⟦<DirFolder<'a, R> as Folder>⟧.faults self.new) }
        ensures steady { result ≢ Stored.Failed
            → ⟦<DirFolder<'a, R> as Folder>⟧.faults self.new ≡ ⟦<DirFolder<'a, R> as Folder>⟧.faults self.old }
    {
        match fs::write(self.rt, name.as_str(), bytes) {
            Ok(()) => Stored::Done,
            Err(_) => {
                self.faults = self.faults.saturating_add(1);
                Stored::Failed
            }
        }
    }
}
