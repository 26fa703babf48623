//! A folder in memory that fails at calls which are listed beforehand.
ghost use Rattle.std.specs.Prelude.{◌≡◌, ◌≢◌, ◌↔◌, ◌≤◌, Some, None, OnOk, OnErr, option_copied};
ghost use Rattle.std.specs.FinMap.{insert};
ghost use Rattle.mos_text.specs.Content.{known_of, known_bytes, SameElsewhere, absent_if_unknown, files_of};
ghost use Rattle.mos_text.specs.Gets.{Answers};
ghost use Rattle.mos_text.specs.Calls.{FailsNext, after_one, calls_of, one_more};

use crate::entries::{find_latest, give};
use crate::failing_calls::FailingCalls;
use crate::{Blob, Folder, Got, NoMemory, Stored, Text};
use std::alloc::Global;
use std::marker::Model;

/// A folder in memory that fails by list. Gets and puts are each numbered by themselves, from 1.
#[derive(Debug, Drop)]
pub struct MemFolder {
    given: Vec<(Text, Blob)>,
    /// What was put, the newest first; no bytes where that put failed.
    later: Vec<(Text, Option<Blob>)>,
    gets: FailingCalls,
    puts: FailingCalls,
    faults: u64,
}

impl Model for MemFolder {
    ghost use Rattle.mos_text.specs.Content.{files_of, laid_over};
    ghost use Rattle.mos_text.specs.Memory.{MemoryFiles, memory_files_code};

    ghost Value = { MemoryFiles };

    ghost coded = { memory_files_code };

    ghost view = { λ f. record {
      files = laid_over f.later.items (files_of f.given.items);
      gets = f.gets;
      puts = f.puts;
      faults = f.faults;
    } };
}

impl MemFolder {
    /// A folder of these files, of which the gets and puts of these numbers fail; of two equal
    /// names the first counts.
    pub fn new(
        alloc: Global,
        files: Vec<(Text, Blob)>,
        failing_gets: Vec<u32>,
        failing_puts: Vec<u32>,
    ) -> MemFolder
        ensures files { result.files ≡ files_of files.items }
        ensures gets { result.gets ≡ calls_of failing_gets.items }
        ensures puts { result.puts ≡ calls_of failing_puts.items }
        ensures faults { result.faults ≡ 0 }
    {
        MemFolder {
            given: files,
            later: Vec::new(alloc),
            gets: FailingCalls::new(failing_gets),
            puts: FailingCalls::new(failing_puts),
            faults: 0,
        }
    }

    /// The bytes of the file, where there is one whose bytes are known.
    pub fn content(&self, name: &Text) -> Option<&[u8]>
        ensures { option_copied result ≡ known_bytes (known_of (Some self.now.files) name.now) }
    {
        find_latest(self.later.as_slice(), self.given.as_slice(), name)
    }

    /// How often the folder has failed.
    pub fn faults(&self) -> u64
        ensures { result ≡ self.now.faults }
    {
        self.faults
    }

    /// Puts one entry before all others; nothing changes where memory is wanting.
    fn add(&mut self, alloc: Global, name: &Text, blob: Option<Blob>) -> Result<(), NoMemory>
        ensures ok { OnOk result (self.new
            ≡ record self.old { files = insert self.old.files name.now blob }) }
        ensures err { OnErr result (self.new ≡ self.old) }
        ensures others { SameElsewhere name.now (Some self.old.files) (Some self.new.files) }
    {
        let entry = (name.copy(alloc)?, blob);
        self.later.insert(0, entry)?;
        Ok(())
    }

    fn fail(&mut self)
        ensures counted { self.new ≡ record self.old { faults = one_more self.old.faults } }
        ensures later { self.old.faults ≤ self.new.faults }
    {
        self.faults = self.faults.saturating_add(1);
    }
}

impl Folder for MemFolder {
    ghost content = { λ f. Some f.files };

    ghost faults = { λ f. f.faults };

    fn get(&mut self, alloc: Global, name: &Text, limit: u32) -> Got
        ensures answer { Answers (absent_if_unknown (known_of (Some self.old.files) name.now)) limit result }
        ensures content { self.new.files ≡ self.old.files }
        ensures listed { (result ≡ Got.Failed) ↔ FailsNext self.old.gets }
        ensures counted { self.new.gets ≡ after_one self.old.gets }
        ensures puts { self.new.puts ≡ self.old.puts }
        ensures later { self.old.faults ≤ self.new.faults }
        ensures faults { result ≢ Got.Failed → self.new.faults ≡ self.old.faults }
        ensures failed { result ≡ Got.Failed → self.new.faults ≡ one_more self.old.faults }
    {
        if self.gets.next_fails() {
            self.fail();
            return Got::Failed;
        }
        give(alloc, self.content(name), limit)
    }

    fn put(&mut self, alloc: Global, name: &Text, bytes: &[u8]) -> Stored
        ensures done { result ≡ Stored.Done
            → self.new.files ≡ insert self.old.files name.now (Some bytes.now) }
        ensures lost { result ≡ Stored.Failed
            → self.new.files ≡ insert self.old.files name.now None }
        ensures memory { result ≡ Stored.NoMemory → self.new.files ≡ self.old.files }
        ensures others { SameElsewhere name.now (Some self.old.files) (Some self.new.files) }
        ensures unlisted { result ≡ Stored.Done → ¬ (FailsNext self.old.puts) }
        ensures listed { result ≡ Stored.Failed → FailsNext self.old.puts }
        ensures counted { self.new.puts ≡ after_one self.old.puts }
        ensures gets { self.new.gets ≡ self.old.gets }
        ensures later { self.old.faults ≤ self.new.faults }
        ensures faults { result ≢ Stored.Failed → self.new.faults ≡ self.old.faults }
        ensures failed { result ≡ Stored.Failed → self.new.faults ≡ one_more self.old.faults }
    {
        if self.puts.next_fails() {
            if self.add(alloc, name, None).is_err() {
                return Stored::NoMemory;
            }
            self.fail();
            return Stored::Failed;
        }
        let Ok(blob) = Blob::new(alloc, bytes) else {
            return Stored::NoMemory;
        };
        match self.add(alloc, name, Some(blob)) {
            Ok(()) => Stored::Done,
            Err(_) => Stored::NoMemory,
        }
    }
}
