//! Texts: bytes that are UTF-8.
ghost use Rattle.std.specs.Prelude.{◌≡◌, ◌↔◌, string_bytes, IfOk, IsUtf8, IsErrOf, IsTrue};
ghost use Rattle.mos_text.specs.declared.text.TextFault.TheVariants.{NotText, NoMemory as WantsMemory};

use crate::NoMemory;
use std::alloc::{AllocError, Global};
use std::marker::Model;

/// A text: bytes that are UTF-8. A contract sees the list of its bytes.
#[derive(Debug, Drop)]
pub struct Text {
    text: String,
}

impl Model for Text {
    ghost use Rattle.std.specs.Prelude.{List, ℕ, string_bytes};

    ghost Value = { List ℕ };

    ghost view = { λ t. string_bytes t.text };
}

/// Why bytes have made no text.
#[derive(Clone, Copy, Debug, PartialEq, Drop)]
pub enum TextFault {
    /// The bytes are no UTF-8.
    NotText,
    NoMemory,
}

impl From<AllocError> for TextFault {
    ghost use Rattle.std.specs.Prelude.{◌≡◌};
    ghost use Rattle.mos_text.specs.declared.text.TextFault.TheVariants.{NoMemory};

    ghost from_gives = { λ _ fault. fault ≡ NoMemory };

    fn from(_refused: AllocError) -> TextFault {
        TextFault::NoMemory
    }
}

impl Text {
    /// The text of these bytes, copied.
    pub fn new(alloc: Global, bytes: &[u8]) -> Result<Text, TextFault>
        ensures equal { IfOk result (λ t. t ≡ bytes.now) }
        ensures utf8 { IfOk result (λ _. IsUtf8 bytes.now) }
        ensures not_text { IsErrOf result NotText ↔ ¬ (IsUtf8 bytes.now) }
        ensures memory { IsErrOf result WantsMemory → IsUtf8 bytes.now }
    {
        match std::str::from_utf8(bytes) {
            Ok(read) => {
                let text = String::from_str(alloc, read)?;
                Ok(Text { text })
            }
            Err(_) => Err(TextFault::NotText),
        }
    }

    /// The text that the string holds; it takes no memory.
    pub fn from_string(text: String) -> Text
        ensures { result ≡ string_bytes text }
    {
        Text { text }
    }

    /// The text as a string slice.
    pub fn as_str(&self) -> &str
        ensures value { result.now ≡ self.now }
    {
        self.text.as_str()
    }

    /// The bytes of the text.
    pub fn as_bytes(&self) -> &[u8]
        ensures value { result.now ≡ self.now }
        ensures utf8 { IsUtf8 self.now }
    {
        self.text.as_str().as_bytes()
    }

    /// A text with the same bytes.
    pub fn copy(&self, alloc: Global) -> Result<Text, NoMemory>
        ensures { IfOk result (λ t. t ≡ self.now) }
    {
        let text = String::from_str(alloc, self.text.as_str())?;
        Ok(Text { text })
    }

    /// Whether both texts have the same bytes.
    pub fn is(&self, other: &Text) -> bool
        ensures { IsTrue result ↔ (self.now ≡ other.now) }
    {
        self.text.as_bytes() == other.text.as_bytes()
    }
}
