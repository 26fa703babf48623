//! An entry of the journal, and the files that its first entry lists.
ghost use Rattle.std.specs.Prelude.{◌≡◌, IfOk};

use crate::call::Call;
use crate::reply::Reply;
use mos_text::{NoMemory, SharedBlob, Text};
use std::alloc::Global;

/// A file that the words of the command list: a source or a data file.
#[derive(Debug, Drop)]
pub struct Listed {
    pub name: Text,
    pub bytes: SharedBlob,
    /// The code of the source's verdict: 0 accepted, 1 no sentence, 2 wrong names or types. 0 for a
    /// data file.
    pub code: u8,
}

impl Listed {
    /// The same file once more; its bytes are shared and not copied.
    pub fn copy(&self, alloc: Global) -> Result<Listed, NoMemory>
        ensures { IfOk result (λ it. it ≡ self.now) }
    {
        let name = self.name.copy(alloc)?;
        let bytes = self.bytes.share()?;
        Ok(Listed {
            name,
            bytes,
            code: self.code,
        })
    }
}

/// One place of the journal: who called, what, and what the hub answered.
#[derive(Debug, Drop)]
pub struct Entry {
    pub lane: u32,
    /// The run that called; none for `Open`, `Claim` and `Quit`, which a lane calls for itself.
    pub run: Option<u32>,
    pub call: Call,
    pub reply: Reply,
}
