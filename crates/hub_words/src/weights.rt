//! Whether a journal is full.
ghost use Rattle.std.specs.Prelude.{◌≡◌, ℕ, ◌-◌, ◌+◌, List, length};
ghost use Rattle.job_calls.specs.declared.entry.Entry.{Entry};
ghost use Rattle.job_calls.specs.Weights as weights;
ghost use Rattle.job_calls.specs.Answers as answers;

use job_calls::{Call, Entry};

const ENTRIES: usize = 1_000_000;

/// One byte more than the calls of a journal may weigh.
pub const FULL_WEIGHT: usize = 268_435_457;

/// What is left of the room for some bytes.
fn less(room: usize, bytes: &[u8]) -> usize
    ensures { result ≡ room - length bytes.now }
{
    room.saturating_sub(bytes.len())
}

/// What is left of the room for the bytes of calls.
pub fn less_call(room: usize, call: &Call) -> usize
    ensures { result ≡ room - weights.call_weight call.now }
{
    match call {
        Call::Compile { src, dst } => less(less(room, src.as_bytes()), dst.as_bytes()),
        Call::Load { file } => less(room, file.as_bytes()),
        Call::Run { params, .. } => less(room, params.as_bytes()),
        Call::Read { name } => less(room, name.as_bytes()),
        Call::Write { name, bytes } => less(less(room, name.as_bytes()), bytes.as_bytes()),
        Call::PipeOpen { name, .. } => less(room, name.as_bytes()),
        Call::PipePut { name, bytes } => less(less(room, name.as_bytes()), bytes.as_bytes()),
        Call::PipeTake { name } => less(room, name.as_bytes()),
        Call::PipeClose { name } => less(room, name.as_bytes()),
        Call::Open { .. } => room,
        Call::Claim => room,
        Call::Quit => room,
        Call::Finish(_) => room,
        Call::Wait => room,
        Call::Next => room,
        Call::Peek => room,
        Call::Drop => room,
        Call::IsEmpty => room,
        Call::Send { .. } => room,
        Call::Status { .. } => room,
        Call::ExitCode { .. } => room,
        Call::Stop { .. } => room,
        Call::Unload { .. } => room,
    }
}

fn less_calls(room: usize, journal: &[Entry]) -> usize
    ensures { result ≡ room - weights.weight journal.now }
{
    journal
        .iter()
        .fold(room, |left, e| less_call(left, &e.call))
}

/// The same of a journal with so many entries, which may weigh so much more, less one byte.
pub fn is_full_with(count: usize, left: usize, call: &Call) -> bool
    ensures { (journal : List Entry) → count ≡ length journal
        → left ≡ 268435457 - weights.weight journal → result ≡ answers.is_full journal call.now }
{
    count >= ENTRIES || less_call(left, call) == 0
}

/// The journal takes no further call of a run, or none of this weight.
pub(crate) fn is_full(journal: &[Entry], call: &Call) -> bool
    ensures { result ≡ answers.is_full journal.now call.now }
{
    is_full_with(journal.len(), less_calls(FULL_WEIGHT, journal), call)
}
