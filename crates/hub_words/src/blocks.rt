//! Blocks and files: what was last written under a name.
ghost use Rattle.std.specs.Prelude.{◌≡◌, ◌<◌, ◌^◌, ℕ, length, None, Some, IfSome, MatchOption};
ghost use Rattle.job_calls.specs.Blocks as blocks;
ghost use Rattle.hub_words.specs.Fronts.{IsWritten};

use crate::given::last_place;
use job_calls::{Call, Entry, Reply};
use mos_text::{SharedBlob, Text};

fn writes(name: &Text, call: &Call, reply: &Reply) -> bool
    ensures { result ≡ blocks.writes name.now call.now reply.now }
{
    match (call, reply) {
        (Call::Write { name: written, .. }, Reply::Unit) => written.as_bytes() == name.as_bytes(),
        _ => false,
    }
}

/// The place of the last write under this name.
fn last_write(name: &Text, journal: &[Entry]) -> Option<usize>
    ensures place { result ≡ blocks.last_write name.now journal.now }
    ensures within { IfSome result (λ place. place < length journal.now) }
{
    last_place(journal, |e| writes(name, &e.call, &e.reply))
}

/// The bytes that a call writes.
fn bytes_written(call: &Call) -> Option<&SharedBlob>
    ensures { MatchOption result (blocks.bytes_written call.now ≡ None)
        (λ bytes. blocks.bytes_written call.now ≡ Some bytes.now) }
{
    match call {
        Call::Write { bytes, .. } => Some(bytes),
        _ => None,
    }
}

/// What the entry at this place wrote.
pub fn written_at(place: usize, journal: &[Entry]) -> Option<(u32, &SharedBlob)>
    requires { place < 2 ^ 31 }
    ensures { MatchOption result (blocks.written_at place journal.now ≡ None)
        (λ w. IsWritten (blocks.written_at place journal.now) w.0 w.1.now) }
{
    match journal.get(place) {
        None => None,
        Some(entry) => match bytes_written(&entry.call) {
            None => None,
            Some(bytes) => Some((place as u32, bytes)),
        },
    }
}

/// What was last written under this name, and the place of the entry that wrote it.
pub(crate) fn last_written<'a>(name: &Text, journal: &'a [Entry]) -> Option<(u32, &'a SharedBlob)>
    requires { length journal.now < 2 ^ 31 }
    ensures { MatchOption result (blocks.last_written name.now journal.now ≡ None)
        (λ w. IsWritten (blocks.last_written name.now journal.now) w.0 w.1.now) }
{
    match last_write(name, journal) {
        None => None,
        Some(place) => written_at(place, journal),
    }
}
