//! Texts that stand in a source, and so are no longer than one.
ghost use Rattle.std.specs.Prelude.{◌≡◌, ◌↔◌, ◌≤◌, length, IfOk, IsUtf8, IsTrue};
ghost use Rattle.mos_text.specs.Limits.{source_limit};

use crate::{NoMemory, Text};
use std::alloc::Global;
use std::marker::Model;

/// A name or a text of a source: at most 1,048,576 bytes, as a source has at most so many. A
/// contract sees the list of its bytes, as that of a text.
#[derive(Debug, Drop)]
pub struct SourceText {
    text: Text,
}

impl Model for SourceText {
    ghost use Rattle.std.specs.Prelude.{List, ℕ, length, ◌≤◌};
    ghost use Rattle.mos_text.specs.Limits.{source_limit};

    ghost Value = { List ℕ };

    ghost view = { λ s. s.text };

    ghost invariant = { λ s. length s.text ≤ source_limit };
}

impl SourceText {
    /// The text as one of a source; it takes no memory.
    pub fn new(text: Text) -> SourceText
        requires { length text ≤ source_limit }
        ensures { result ≡ text }
    {
        SourceText { text }
    }

    /// The text as one that may have any length.
    pub fn text(&self) -> &Text
        ensures equal { result.now ≡ self.now }
        ensures short { length self.now ≤ source_limit }
    {
        &self.text
    }

    /// The text, given back; it takes no memory.
    pub fn into_text(self) -> Text
        ensures equal { result ≡ self }
        ensures short { length self ≤ source_limit }
    {
        self.text
    }

    /// The text as a string slice.
    pub fn as_str(&self) -> &str
        ensures { result.now ≡ self.now }
    {
        self.text.as_str()
    }

    /// The bytes of the text.
    pub fn as_bytes(&self) -> &[u8]
        ensures value { result.now ≡ self.now }
        ensures utf8 { IsUtf8 self.now }
        ensures short { length self.now ≤ source_limit }
    {
        self.text.as_bytes()
    }

    /// A text with the same bytes.
    pub fn copy(&self, alloc: Global) -> Result<SourceText, NoMemory>
        ensures { IfOk result (λ t. t ≡ self.now) }
    {
        match self.text.copy(alloc) {
            Ok(text) => Ok(SourceText { text }),
            Err(refused) => Err(refused),
        }
    }

    /// Whether both texts have the same bytes.
    pub fn is(&self, other: &SourceText) -> bool
        ensures { IsTrue result ↔ (self.now ≡ other.now) }
    {
        self.text.is(&other.text)
    }
}
