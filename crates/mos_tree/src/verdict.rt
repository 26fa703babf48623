//! What is said of a whole source.
use mos_text::Kind;

/// What is said of a source.
#[derive(Debug, Drop)]
pub struct Verdict {
    /// 0 accepted, 1 a fault of the text, 2 a fault of types or of size.
    pub code: u8,
    /// The line of the fault, from 1; 0 where the source is accepted.
    pub line: u32,
    pub kind: Kind,
}
