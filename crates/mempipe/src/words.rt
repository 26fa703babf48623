//! What an entry says of the pipe of a name.
ghost use Rattle.std.specs.Prelude.{◌≡◌, option_copied};
ghost use Rattle.job_calls.specs.Pipes as pipes;
ghost use Rattle.mempipe.specs.States as states;

use crate::hold::Hold;
use job_calls::{Call, Entry, Reply, Way};
use mos_text::Text;

fn is_way(way: Way, end: Way) -> bool
    ensures { result ≡ pipes.is_way way end }
{
    matches!(
        (way, end),
        (Way::Reads, Way::Reads) | (Way::Writes, Way::Writes)
    )
}

/// The session that the entry opened an end of the pipe for.
pub(crate) fn opened_session(way: Way, name: &Text, entry: &Entry) -> Option<u32>
    ensures { result ≡ pipes.opened_session way name.now entry.now.call entry.now.reply }
{
    match (&entry.call, &entry.reply) {
        (
            Call::PipeOpen {
                name: opened,
                way: end,
            },
            Reply::Session { place },
        ) => {
            let opens = is_way(way, *end) && opened.as_bytes() == name.as_bytes();
            opens.then_some(place.0)
        }
        _ => None,
    }
}

/// The entry opens this end of the pipe.
pub(crate) fn opens(way: Way, name: &Text, entry: &Entry) -> bool
    ensures { result ≡ pipes.opens way name.now entry.now }
{
    opened_session(way, name, entry).is_some()
}

fn is_close(name: &Text, entry: &Entry) -> bool
    ensures { result ≡ pipes.is_close name.now entry.now.call entry.now.reply }
{
    match (&entry.call, &entry.reply) {
        (Call::PipeClose { name: closed }, Reply::Unit) => closed.as_bytes() == name.as_bytes(),
        _ => false,
    }
}

/// The run that opened an end closes it.
pub(crate) fn is_closed_by(name: &Text, hold: Option<Hold>, entry: &Entry) -> bool
    ensures { result ≡ states.is_closed_by name.now hold entry.now }
{
    match (hold, entry.run) {
        (Some(hold), Some(run)) => run == hold.run && is_close(name, entry),
        _ => false,
    }
}

/// The bytes that the entry puts into the pipe.
pub(crate) fn put_by<'a>(name: &Text, entry: &'a Entry) -> &'a [u8]
    ensures { result.now ≡ pipes.put_by name.now entry.now.call entry.now.reply }
{
    match (&entry.call, &entry.reply) {
        (Call::PipePut { name: put, bytes }, Reply::Unit) if put.as_bytes() == name.as_bytes() => {
            bytes.as_bytes()
        },
        _ => &[],
    }
}

/// The bytes that the entry takes out of it.
pub(crate) fn taken_by<'a>(name: &Text, entry: &'a Entry) -> &'a [u8]
    ensures { result.now ≡ pipes.taken_by name.now entry.now.call entry.now.reply }
{
    match (&entry.call, &entry.reply) {
        (Call::PipeTake { name: taken }, Reply::Bytes(bytes))
            if taken.as_bytes() == name.as_bytes() => { bytes.as_bytes() }
        _ => &[],
    }
}

/// The name of the pipe that the call speaks of.
pub(crate) fn piped_name(call: &Call) -> Option<&Text>
    ensures { option_copied result ≡ states.named_pipe call.now }
{
    match call {
        Call::PipeOpen { name, .. } => Some(name),
        Call::PipePut { name, .. } => Some(name),
        Call::PipeTake { name } => Some(name),
        Call::PipeClose { name } => Some(name),
        _ => None,
    }
}
