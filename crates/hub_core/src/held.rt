use job_calls::{Call, Reply};
use mos_text::Place;

/// The place of the entry that a call has made, and its reply.
#[derive(Debug, Drop)]
pub struct Acted {
    pub place: Place,
    pub reply: Reply,
}

/// Why a call was handed back.
#[derive(Debug, Drop)]
pub enum Held {
    /// It may be made again, once the journal has grown.
    NotYet(Call),
    /// The job was ended before its time.
    Shut(Call),
    /// There was no memory for the answer or the entry.
    NoMemory(Call),
}
