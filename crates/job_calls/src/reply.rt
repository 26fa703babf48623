//! What the hub answers.
ghost use Rattle.std.specs.Prelude.{◌≡◌, ◌<◌, ◌^◌, All, IfOk, IsOk, IsTrue};
ghost use Rattle.job_calls.specs.Replies.{InRange, is_plain};

use mos_text::{Blob, FaultKind, NoMemory, Place, SharedBlob, Text};
use std::alloc::Global;

/// What the hub answers to a call.
#[derive(Debug, Drop)]
pub enum Reply {
    Opened,
    /// The lane holds this run: `source` is its model's place in the list of files, from 0.
    Claimed {
        run: u32,
        source: u32,
        params: Text,
    },
    /// Run 0 has ended and no run waits for a lane.
    Done,
    /// The verdict's code of the source that was to be compiled.
    Code(u8),
    Loaded {
        model: u32,
        source: u32,
    },
    Started {
        run: u32,
    },
    Unit,
    /// An event, with the place of the entry that sent it.
    Took {
        place: Place,
        class: i32,
        value: i32,
    },
    Seen {
        place: Place,
        class: i32,
        value: i32,
    },
    Nothing,
    Flag(bool),
    Queued {
        run: u32,
    },
    Lost,
    Number(i32),
    /// What was read, with the place of the entry that wrote it, 0 for a listed file.
    Found {
        place: Place,
        bytes: SharedBlob,
    },
    /// A pipe was opened: the place of the entry that opened it to read.
    Session {
        place: Place,
    },
    Bytes(Blob),
    PipeEnd,
    /// The run was asked to stop.
    Halt,
    Fault(FaultKind),
}

/// What a journal says of a call that fits it.
#[derive(Debug, Drop)]
pub enum Answer {
    /// The call is answered so, and stands in the journal from then on.
    Ready(Reply),
    /// The call leaves nothing behind, and may be made again.
    NotYet,
    /// The job was ended before its time: no call is answered any more.
    Shut,
}

impl Reply {
    /// What a reply holds is in the ranges of its types: it does nothing, and says so.
    pub fn in_range(&self)
        ensures { InRange self.now }
    {
        match self {
            Reply::Claimed { run, source, .. } => {
                let _numbers = (*run, *source);
            }
            Reply::Code(code) => {
                let _code = *code;
            }
            Reply::Loaded { model, source } => {
                let _numbers = (*model, *source);
            }
            Reply::Started { run } => {
                let _run = *run;
            }
            Reply::Took {
                place,
                class,
                value,
            } => {
                let _numbers = (*class, *value);
                place_in_range(*place);
            }
            Reply::Seen {
                place,
                class,
                value,
            } => {
                let _numbers = (*class, *value);
                place_in_range(*place);
            }
            Reply::Queued { run } => {
                let _run = *run;
            }
            Reply::Number(number) => {
                let _number = *number;
            }
            Reply::Found { place, bytes } => {
                place_in_range(*place);
                bytes_in_range(bytes.as_bytes())
            }
            Reply::Session { place } => {
                place_in_range(*place);
            }
            Reply::Bytes(bytes) => bytes_in_range(bytes.as_bytes()),
            Reply::Opened
            | Reply::Done
            | Reply::Unit
            | Reply::Nothing
            | Reply::Flag(_)
            | Reply::Lost
            | Reply::PipeEnd
            | Reply::Halt
            | Reply::Fault(_) => (),
        }
    }

    /// The same reply once more; the bytes of blocks are shared and not copied. A reply without texts
    /// and bytes takes no memory.
    pub fn copy(&self, alloc: Global) -> Result<Reply, NoMemory>
        ensures same { IfOk result (λ reply. reply ≡ self.now) }
        ensures plain { IsTrue (is_plain self.now) → IsOk result }
    {
        Ok(match self {
            Reply::Opened => Reply::Opened,
            Reply::Claimed {
                run,
                source,
                params,
            } => Reply::Claimed {
                run: *run,
                source: *source,
                params: params.copy(alloc)?,
            },
            Reply::Done => Reply::Done,
            Reply::Code(code) => Reply::Code(*code),
            Reply::Loaded { model, source } => Reply::Loaded {
                model: *model,
                source: *source,
            },
            Reply::Started { run } => Reply::Started { run: *run },
            Reply::Unit => Reply::Unit,
            Reply::Took {
                place,
                class,
                value,
            } => Reply::Took {
                place: *place,
                class: *class,
                value: *value,
            },
            Reply::Seen {
                place,
                class,
                value,
            } => Reply::Seen {
                place: *place,
                class: *class,
                value: *value,
            },
            Reply::Nothing => Reply::Nothing,
            Reply::Flag(flag) => Reply::Flag(*flag),
            Reply::Queued { run } => Reply::Queued { run: *run },
            Reply::Lost => Reply::Lost,
            Reply::Number(number) => Reply::Number(*number),
            Reply::Found { place, bytes } => Reply::Found {
                place: *place,
                bytes: bytes.share()?,
            },
            Reply::Session { place } => Reply::Session { place: *place },
            Reply::Bytes(bytes) => Reply::Bytes(bytes.copy(alloc)?),
            Reply::PipeEnd => Reply::PipeEnd,
            Reply::Halt => Reply::Halt,
            Reply::Fault(kind) => Reply::Fault(*kind),
        })
    }
}

/// The bytes of a slice are bytes.
fn bytes_in_range(_bytes: &[u8])
    ensures { All (λ byte. byte < 2 ^ 8) _bytes.now }
{}

/// The number of a place fits 32 bits.
fn place_in_range(_place: Place)
    ensures { _place.0 < 2 ^ 32 }
{}
