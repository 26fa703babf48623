//! Blobs that several owners share.
ghost use Rattle.std.specs.Prelude.{◌≡◌, IfOk};

use crate::{Blob, NoMemory};
use std::alloc::Global;
use std::marker::Model;
use std::sync::Arc;

/// A blob that several owners share. A contract sees its bytes, whoever holds it.
#[derive(Debug, Drop)]
pub struct SharedBlob {
    blob: Arc<Blob>,
}

impl Model for SharedBlob {
    ghost use Rattle.std.specs.Prelude.{List, ℕ};

    ghost Value = { List ℕ };

    ghost view = { λ s. s.blob.value };
}

impl SharedBlob {
    /// Takes the blob as it is, to be shared.
    pub fn new(alloc: Global, blob: Blob) -> Result<SharedBlob, NoMemory>
        ensures { IfOk result (λ s. s ≡ blob) }
    {
        let blob = Arc::new(alloc, blob)?;
        Ok(SharedBlob { blob })
    }

    /// The bytes that all its owners share.
    pub fn as_bytes(&self) -> &[u8]
        ensures { result.now ≡ self.now }
    {
        self.blob.as_bytes()
    }

    /// Another owner of the same bytes; they are not copied. Refused only where the count of owners
    /// is at its end.
    pub fn share(&self) -> Result<SharedBlob, NoMemory>
        ensures { IfOk result (λ s. s ≡ self.now) }
    {
        let blob = Arc::try_clone(&self.blob)?;
        Ok(SharedBlob { blob })
    }
}
