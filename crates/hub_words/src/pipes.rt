//! Pipes: who holds their ends, their sessions, and the bytes in them.
ghost use Rattle.std.specs.Prelude.{◌≡◌, ℕ, ◌<◌, ◌^◌, ◌+◌, ◌-◌, ◌&&◌, length, drop, IfOk, IfSome, is_some};
ghost use Rattle.job_calls.specs.Entries as words;
ghost use Rattle.job_calls.specs.Runs as runs;
ghost use Rattle.job_calls.specs.Pipes as pipes;
ghost use Rattle.job_calls.specs.Blocks.{last_place};

use crate::entry_tests::{is_finish, is_run};
use crate::given::{last_given, last_place};
use job_calls::{Call, Entry, Reply, Way};
use mos_text::{NoMemory, Text};
use std::alloc::Global;

fn is_way(way: Way, end: Way) -> bool
    ensures { result ≡ pipes.is_way way end }
{
    matches!(
        (way, end),
        (Way::Reads, Way::Reads) | (Way::Writes, Way::Writes)
    )
}

/// The session that the call opened an end of the pipe for.
pub(crate) fn opened_session(way: Way, name: &Text, call: &Call, reply: &Reply) -> Option<u32>
    ensures { result ≡ pipes.opened_session way name.now call.now reply.now }
{
    match (call, reply) {
        (
            Call::PipeOpen {
                name: opened,
                way: end,
            },
            Reply::Session { place },
        ) => {
            let opens = is_way(way, *end) && opened.as_bytes() == name.as_bytes();
            opens.then_some(place.0)
        }
        _ => None,
    }
}

fn opens(way: Way, name: &Text, entry: &Entry) -> bool
    ensures { result ≡ pipes.opens way name.now entry.now }
{
    opened_session(way, name, &entry.call, &entry.reply).is_some()
}

fn is_close(name: &Text, call: &Call, reply: &Reply) -> bool
    ensures { result ≡ pipes.is_close name.now call.now reply.now }
{
    match (call, reply) {
        (Call::PipeClose { name: closed }, Reply::Unit) => closed.as_bytes() == name.as_bytes(),
        _ => false,
    }
}

/// A run lets go of its ends of the pipe.
pub(crate) fn lets_go(name: &Text, call: &Call, reply: &Reply) -> bool
    ensures { result ≡ pipes.lets_go name.now call.now reply.now }
{
    is_close(name, call, reply) || is_finish(call)
}

fn closes(name: &Text, held: Option<u32>, entry: &Entry) -> bool
    ensures { result ≡ pipes.closes name.now held entry.now }
{
    match held {
        None => false,
        Some(run) => is_run(run, entry.run) && lets_go(name, &entry.call, &entry.reply),
    }
}

/// Who holds this end of the pipe after one more entry.
fn holder_after(way: Way, name: &Text, held: Option<u32>, entry: &Entry) -> Option<u32>
    ensures { result ≡ pipes.holder_after way name.now held entry.now }
{
    if opens(way, name, entry) {
        entry.run
    } else if closes(name, held, entry) {
        None
    } else {
        held
    }
}

/// The run that holds this end of the pipe.
pub(crate) fn holder(way: Way, name: &Text, journal: &[Entry]) -> Option<u32>
    ensures { result ≡ pipes.holder way name.now journal.now }
{
    journal
        .iter()
        .fold(None, |held, e| holder_after(way, name, held, e))
}

/// The place at which the last session of the pipe began.
fn session_place(name: &Text, journal: &[Entry]) -> Option<usize>
    ensures place { result ≡ pipes.session name.now journal.now }
    ensures within { IfSome result (λ place. place < length journal.now) }
{
    last_place(journal, |e| opens(Way::Reads, name, e))
}

/// The same, as a place of an entry.
pub(crate) fn session(name: &Text, journal: &[Entry]) -> Option<u32>
    requires { length journal.now < 2 ^ 31 }
    ensures { result ≡ pipes.session name.now journal.now }
{
    match session_place(name, journal) {
        None => None,
        Some(place) => Some(place as u32),
    }
}

/// The session that the pipe was last opened to write for.
fn writers_session(name: &Text, journal: &[Entry]) -> Option<u32>
    ensures { result ≡ pipes.writers_session name.now journal.now }
{
    last_given(journal, |e| {
        opened_session(Way::Writes, name, &e.call, &e.reply)
    })
}

fn is_session(place: Option<usize>, other: Option<u32>) -> bool
    ensures { result ≡ pipes.is_session place other }
{
    match (place, other) {
        (Some(place), Some(other)) => place == other as usize,
        _ => false,
    }
}

/// The last session had its writer already.
pub(crate) fn had_writer(name: &Text, journal: &[Entry]) -> bool
    ensures { result ≡ pipes.had_writer name.now journal.now }
{
    let place = session_place(name, journal);
    journal.iter().any(|e| {
        is_session(place, opened_session(Way::Writes, name, &e.call, &e.reply))
    })
}

/// The pipe's reader is the one that its writer was opened for.
pub(crate) fn is_joined(name: &Text, journal: &[Entry]) -> bool
    ensures { result ≡ pipes.is_joined name.now journal.now }
{
    holder(Way::Reads, name, journal).is_some()
        && is_session(session_place(name, journal), writers_session(name, journal))
}

/// The last session's writer has closed.
pub(crate) fn is_ended(name: &Text, journal: &[Entry]) -> bool
    ensures { result ≡ pipes.is_ended name.now journal.now }
{
    had_writer(name, journal) && holder(Way::Writes, name, journal).is_none()
}

/// The entries of the last session.
fn in_session<'a>(name: &Text, journal: &'a [Entry]) -> &'a [Entry]
    ensures { result.now ≡ pipes.in_session name.now journal.now }
{
    match session_place(name, journal) {
        None => &[],
        Some(place) => behind(place, journal),
    }
}

/// What stands behind a place.
fn behind(place: usize, journal: &[Entry]) -> &[Entry]
    ensures { result.now ≡ drop (place + 1) journal.now }
{
    if place < journal.len() {
        &journal[place + 1..]
    } else {
        &[]
    }
}

fn put_by<'a>(name: &Text, call: &'a Call, reply: &Reply) -> &'a [u8]
    ensures { result.now ≡ pipes.put_by name.now call.now reply.now }
{
    match (call, reply) {
        (Call::PipePut { name: put, bytes }, Reply::Unit) if put.as_bytes() == name.as_bytes() => {
            bytes.as_bytes()
        },
        _ => &[],
    }
}

fn taken_by<'a>(name: &Text, call: &Call, reply: &'a Reply) -> &'a [u8]
    ensures { result.now ≡ pipes.taken_by name.now call.now reply.now }
{
    match (call, reply) {
        (Call::PipeTake { name: taken }, Reply::Bytes(bytes))
            if taken.as_bytes() == name.as_bytes() => { bytes.as_bytes() }
        _ => &[],
    }
}

/// All bytes that these entries put into the pipe.
fn put_in(alloc: Global, name: &Text, entries: &[Entry]) -> Result<Vec<u8>, NoMemory>
    ensures { IfOk result (λ bytes. bytes.items ≡ pipes.put_in name.now entries.now) }
{
    let mut bytes = Vec::new(alloc);
    for e in entries {
        bytes.extend_from_slice(put_by(name, &e.call, &e.reply))?;
    }
    Ok(bytes)
}

/// How many of so many bytes these entries left in the pipe.
fn less_taken(many: usize, name: &Text, entries: &[Entry]) -> usize
    ensures { result ≡ many - length (pipes.taken_in name.now entries.now) }
{
    entries.iter().fold(many, |left, e| {
        left.saturating_sub(taken_by(name, &e.call, &e.reply).len())
    })
}

/// The bytes of the last session that were put and not yet taken.
pub(crate) fn untaken(alloc: Global, name: &Text, journal: &[Entry]) -> Result<Vec<u8>, NoMemory>
    ensures { IfOk result (λ bytes. bytes.items ≡ pipes.untaken_bytes name.now journal.now) }
{
    let entries = in_session(name, journal);
    let put = put_in(alloc, name, entries)?;
    let many = put.len();
    let left = less_taken(many, name, entries);
    Ok(Vec::from_slice(alloc, &put[many - left..])?)
}
