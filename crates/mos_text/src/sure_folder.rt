//! A folder in memory that never fails.
ghost use Rattle.std.specs.Prelude.{◌≡◌, ◌≢◌, Some, OnOk, OnErr, option_copied};
ghost use Rattle.std.specs.FinMap.{insert};
ghost use Rattle.mos_text.specs.Content.{known_of, known_bytes, held_of, files_of, SameElsewhere};

use crate::entries::{find_bytes, give};
use crate::{Blob, Folder, Got, NoMemory, Stored, Text};
use std::alloc::Global;
use std::marker::Model;

/// A folder in memory that never fails. A contract sees its files.
#[derive(Debug, Drop)]
pub struct SureFolder {
    /// What was put stands before what was given, the newest first.
    files: Vec<(Text, Blob)>,
}

impl Model for SureFolder {
    ghost use Rattle.std.specs.Ordering.{nat_cmp};
    ghost use Rattle.std.specs.Cmp.Lexicographic.{slice_cmp};
    ghost use Rattle.std.specs.Prelude.{List, ℕ, Option};
    ghost use Rattle.std.specs.FinMap as map;
    ghost use Rattle.std.specs.Coded.{coded_ℕ, coded_list, coded_option};
    ghost use Rattle.mos_text.specs.Content.{files_of};

    ghost Value = { map.FinMap (slice_cmp nat_cmp) (Option (List ℕ)) };

    ghost coded = { map.code (coded_list coded_ℕ) (coded_option (coded_list coded_ℕ)) };

    ghost view = { λ f. files_of f.files.items };
}

impl SureFolder {
    /// A folder of these files; of two equal names the first counts. It takes no memory.
    pub fn new(files: Vec<(Text, Blob)>) -> SureFolder
        ensures { result ≡ files_of files.items }
    {
        SureFolder { files }
    }

    /// The bytes of the file, where there is one.
    pub fn content(&self, name: &Text) -> Option<&[u8]>
        ensures bytes { option_copied result ≡ known_bytes (known_of (Some self.now) name.now) }
        ensures known { known_of (Some self.now) name.now ≡ held_of (option_copied result) }
    {
        find_bytes(self.files.as_slice(), name)
    }

    /// Puts one entry before all others; nothing changes where memory is wanting.
    fn add(&mut self, alloc: Global, name: &Text, bytes: &[u8]) -> Result<(), NoMemory>
        ensures ok { OnOk result (self.new ≡ insert self.old name.now (Some bytes.now)) }
        ensures err { OnErr result (self.new ≡ self.old) }
    {
        let entry = (name.copy(alloc)?, Blob::new(alloc, bytes)?);
        self.files.insert(0, entry)?;
        Ok(())
    }
}

impl Folder for SureFolder {
    ghost content = { λ f. Some f };

    ghost faults = { λ _. 0 };

    fn get(&mut self, alloc: Global, name: &Text, limit: u32) -> Got {
        give(alloc, self.content(name), limit)
    }

    fn put(&mut self, alloc: Global, name: &Text, bytes: &[u8]) -> Stored
        ensures done { result ≡ Stored.Done
            → self.new ≡ insert self.old name.now (Some bytes.now) }
        ensures never { result ≢ Stored.Failed }
        ensures memory { result ≡ Stored.NoMemory → self.new ≡ self.old }
        ensures others { SameElsewhere name.now (Some self.old) (Some self.new) }
    {
        match self.add(alloc, name, bytes) {
            Ok(()) => Stored::Done,
            Err(_) => Stored::NoMemory,
        }
    }
}
