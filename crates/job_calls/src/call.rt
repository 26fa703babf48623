//! What a lane or a run asks of the hub.
ghost use Rattle.std.specs.Prelude.{◌≡◌, IfOk};

use crate::end::End;
use crate::entry::Listed;
use mos_text::{Blob, NoMemory, SharedBlob, Text};
use sqlite_items::Items;
use std::alloc::Global;

/// Which end of a pipe is opened.
#[derive(Clone, Copy, Debug)]
pub enum Way {
    Reads,
    Writes,
}

/// What a lane, or the run that it holds, asks of the hub.
#[derive(Debug, Drop)]
pub enum Call {
    /// Begins the job: lanes 1 to 64, a budget of 1 to 1,000,000,000 ticks for each run, the
    /// master's parameter text, and the listed files with the master first.
    Open {
        lanes: u32,
        budget: u32,
        params: Text,
        files: Items<Listed>,
    },
    /// A lane asks for a run to hold.
    Claim,
    /// A lane ends the job before its time.
    Quit,
    /// The run has ended so.
    Finish(End),
    /// Makes the image `dst` of the listed source `src`.
    Compile {
        src: Text,
        dst: Text,
    },
    /// Loads an image that was compiled.
    Load {
        file: Text,
    },
    /// Starts a loaded model with a parameter text.
    Run {
        model: u32,
        params: Text,
    },
    /// Waits until an event stands in the run's queue.
    Wait,
    /// Takes the first event.
    Next,
    /// Looks at the first event.
    Peek,
    /// Takes the first event and forgets it.
    Drop,
    IsEmpty,
    /// Sends an event to a model's current run, or with no model to the run that started this one.
    Send {
        to: Option<u32>,
        class: i32,
        value: i32,
    },
    Status {
        model: u32,
    },
    ExitCode {
        model: u32,
    },
    Stop {
        model: u32,
    },
    Unload {
        model: u32,
    },
    /// Reads a whole data file or block of memory; a block's name begins with `shmem:`.
    Read {
        name: Text,
    },
    Write {
        name: Text,
        bytes: SharedBlob,
    },
    PipeOpen {
        name: Text,
        way: Way,
    },
    PipePut {
        name: Text,
        bytes: Blob,
    },
    PipeTake {
        name: Text,
    },
    PipeClose {
        name: Text,
    },
}

impl Call {
    /// The same call once more; the bytes of files and blocks are shared and not copied.
    pub fn copy(&self, alloc: Global) -> Result<Call, NoMemory>
        ensures { IfOk result (λ call. call ≡ self.now) }
    {
        Ok(match self {
            Call::Open {
                lanes,
                budget,
                params,
                files,
            } => open_copy(alloc, *lanes, *budget, params, files)?,
            Call::Claim => Call::Claim,
            Call::Quit => Call::Quit,
            Call::Finish(end) => Call::Finish(*end),
            Call::Compile { src, dst } => compile_copy(alloc, src, dst)?,
            Call::Load { file } => Call::Load {
                file: file.copy(alloc)?,
            },
            Call::Run { model, params } => Call::Run {
                model: *model,
                params: params.copy(alloc)?,
            },
            Call::Wait => Call::Wait,
            Call::Next => Call::Next,
            Call::Peek => Call::Peek,
            Call::Drop => Call::Drop,
            Call::IsEmpty => Call::IsEmpty,
            Call::Send { to, class, value } => Call::Send {
                to: *to,
                class: *class,
                value: *value,
            },
            Call::Status { model } => Call::Status { model: *model },
            Call::ExitCode { model } => Call::ExitCode { model: *model },
            Call::Stop { model } => Call::Stop { model: *model },
            Call::Unload { model } => Call::Unload { model: *model },
            Call::Read { name } => Call::Read {
                name: name.copy(alloc)?,
            },
            Call::Write { name, bytes } => write_copy(alloc, name, bytes)?,
            Call::PipeOpen { name, way } => Call::PipeOpen {
                name: name.copy(alloc)?,
                way: *way,
            },
            Call::PipePut { name, bytes } => put_copy(alloc, name, bytes)?,
            Call::PipeTake { name } => Call::PipeTake {
                name: name.copy(alloc)?,
            },
            Call::PipeClose { name } => Call::PipeClose {
                name: name.copy(alloc)?,
            },
        })
    }
}

fn open_copy(
    alloc: Global,
    lanes: u32,
    budget: u32,
    params: &Text,
    files: &Items<Listed>,
) -> Result<Call, NoMemory>
    ensures { IfOk result (λ call. call ≡ Call.Open lanes budget params.now files.now) }
{
    let params = params.copy(alloc)?;
    let files = files_copy(alloc, files.as_slice())?;
    Ok(Call::Open {
        lanes,
        budget,
        params,
        files,
    })
}

/// The same files in the same order.
fn files_copy(alloc: Global, files: &[Listed]) -> Result<Items<Listed>, NoMemory>
    ensures { IfOk result (λ list. list ≡ files.now) }
{
    let mut list = Items::new(alloc);
    for file in files {
        list.push(file.copy(alloc)?)?;
    }
    Ok(list)
}

fn compile_copy(alloc: Global, src: &Text, dst: &Text) -> Result<Call, NoMemory>
    ensures { IfOk result (λ call. call ≡ Call.Compile src.now dst.now) }
{
    let src = src.copy(alloc)?;
    let dst = dst.copy(alloc)?;
    Ok(Call::Compile { src, dst })
}

fn write_copy(alloc: Global, name: &Text, bytes: &SharedBlob) -> Result<Call, NoMemory>
    ensures { IfOk result (λ call. call ≡ Call.Write name.now bytes.now) }
{
    let name = name.copy(alloc)?;
    let bytes = bytes.share()?;
    Ok(Call::Write { name, bytes })
}

fn put_copy(alloc: Global, name: &Text, bytes: &Blob) -> Result<Call, NoMemory>
    ensures { IfOk result (λ call. call ≡ Call.PipePut name.now bytes.now) }
{
    let name = name.copy(alloc)?;
    let bytes = bytes.copy(alloc)?;
    Ok(Call::PipePut { name, bytes })
}
