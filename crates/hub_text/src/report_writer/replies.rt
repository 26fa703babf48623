//! The text of a reply.
ghost use Rattle.std.specs.Prelude.{◌≡◌, ◌++◌, OnOk};
ghost use Rattle.hub_text.specs.ReplyText.{reply_text};

use super::fields::{put_hex, put_number, put_with_number};
use job_calls::Reply;
use std::alloc::AllocError;

/// A reply, without what follows from the call, the files and earlier entries.
#[tactic(auto, unfolding(crate::specs::ReplyText::reply_text))]
pub fn put_reply(out: &mut Vec<u8>, reply: &Reply) -> Result<(), AllocError>
    ensures { OnOk result (out.new.items ≡ out.old.items ++ reply_text reply.now) }
{
    match reply {
        Reply::Opened => out.extend_from_slice(b"opened"),
        Reply::Claimed { run, .. } => put_with_number(out, b"claimed", *run),
        Reply::Done => out.extend_from_slice(b"done"),
        Reply::Code(code) => put_with_number(out, b"code", *code as u32),
        Reply::Loaded { model, .. } => put_with_number(out, b"loaded", *model),
        Reply::Started { run } => put_with_number(out, b"started", *run),
        Reply::Unit => out.extend_from_slice(b"unit"),
        Reply::Took { place, .. } => put_with_number(out, b"took", place.0),
        Reply::Seen { place, .. } => put_with_number(out, b"seen", place.0),
        Reply::Nothing => out.extend_from_slice(b"nothing"),
        Reply::Flag(true) => out.extend_from_slice(b"true"),
        Reply::Flag(false) => out.extend_from_slice(b"false"),
        Reply::Queued { run } => put_with_number(out, b"queued", *run),
        Reply::Lost => out.extend_from_slice(b"lost"),
        Reply::Number(number) => {
            out.extend_from_slice(b"number ")?;
            put_number(out, *number)
        }
        Reply::Found { place, .. } => put_with_number(out, b"found", place.0),
        Reply::Session { place } => put_with_number(out, b"session", place.0),
        Reply::Bytes(bytes) => {
            out.extend_from_slice(b"bytes ")?;
            put_hex(out, bytes.as_bytes())
        }
        Reply::PipeEnd => out.extend_from_slice(b"end"),
        Reply::Halt => out.extend_from_slice(b"halt"),
        Reply::Fault(kind) => {
            out.extend_from_slice(b"fault ")?;
            out.extend_from_slice(kind.word().as_bytes())
        }
    }
}
