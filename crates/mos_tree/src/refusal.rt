//! Where and why a source is refused.
use mos_text::Kind;

/// The place and the kind of a source's fault: what the parser, the check and the program say of
/// it.
#[derive(Debug, Drop)]
pub struct Refusal {
    /// The line of the piece at fault, from 1.
    pub line: u32,
    pub kind: Kind,
}
