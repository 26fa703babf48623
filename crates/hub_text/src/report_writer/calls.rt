//! The text of an end and of a call.
ghost use Rattle.std.specs.Prelude.{◌≡◌, ◌++◌, flat_map, OnOk};
ghost use Rattle.hub_text.specs.CallText.{bytes_text, call_text, compile_text, end_text, file_text, open_text, receiver_text, run_text, send_text, way_text};

use super::fields::{put_hex, put_number, put_quoted, put_with_number, put_with_quoted};
use job_calls::{Call, End, Listed, Way};
use std::alloc::AllocError;

/// How a run ended.
#[tactic(auto, unfolding(crate::specs::CallText::end_text))]
pub fn put_end(out: &mut Vec<u8>, end: End) -> Result<(), AllocError>
    ensures { OnOk result (out.new.items ≡ out.old.items ++ end_text end) }
{
    match end {
        End::Code(code) => {
            out.extend_from_slice(b"ok ")?;
            put_number(out, code)
        }
        End::Fault(kind) => {
            out.extend_from_slice(b"fault ")?;
            out.extend_from_slice(kind.word().as_bytes())
        }
        End::Spent => out.extend_from_slice(b"spent"),
        End::Stopped => out.extend_from_slice(b"stopped"),
        End::NoMemory => out.extend_from_slice(b"nomemory"),
    }
}

/// A call with its arguments.
#[tactic(auto, unfolding(crate::specs::CallText::call_text))]
pub fn put_call(out: &mut Vec<u8>, call: &Call) -> Result<(), AllocError>
    ensures { OnOk result (out.new.items ≡ out.old.items ++ call_text call.now) }
{
    match call {
        Call::Open {
            lanes,
            budget,
            params,
            files,
        } => put_open(out, *lanes, *budget, params.as_bytes(), files.as_slice()),
        Call::Claim => out.extend_from_slice(b"Claim"),
        Call::Quit => out.extend_from_slice(b"Quit"),
        Call::Finish(end) => {
            out.extend_from_slice(b"Finish ")?;
            put_end(out, *end)
        }
        Call::Compile { src, dst } => put_compile(out, src.as_bytes(), dst.as_bytes()),
        Call::Load { file } => put_with_quoted(out, b"Load", file.as_bytes()),
        Call::Run { model, params } => put_run(out, *model, params.as_bytes()),
        Call::Wait => out.extend_from_slice(b"Wait"),
        Call::Next => out.extend_from_slice(b"Next"),
        Call::Peek => out.extend_from_slice(b"Peek"),
        Call::Drop => out.extend_from_slice(b"Drop"),
        Call::IsEmpty => out.extend_from_slice(b"IsEmpty"),
        Call::Send { to, class, value } => put_send(out, *to, *class, *value),
        Call::Status { model } => put_with_number(out, b"Status", *model),
        Call::ExitCode { model } => put_with_number(out, b"ExitCode", *model),
        Call::Stop { model } => put_with_number(out, b"Stop", *model),
        Call::Unload { model } => put_with_number(out, b"Unload", *model),
        Call::Read { name } => put_with_quoted(out, b"Read", name.as_bytes()),
        Call::Write { name, bytes } => put_bytes(out, b"Write", name.as_bytes(), bytes.as_bytes()),
        Call::PipeOpen { name, way } => {
            put_with_quoted(out, b"PipeOpen", name.as_bytes())?;
            put_way(out, *way)
        }
        Call::PipePut { name, bytes } => {
            put_bytes(out, b"PipePut", name.as_bytes(), bytes.as_bytes())
        }
        Call::PipeTake { name } => put_with_quoted(out, b"PipeTake", name.as_bytes()),
        Call::PipeClose { name } => put_with_quoted(out, b"PipeClose", name.as_bytes()),
    }
}

#[tactic(auto, unfolding(crate::specs::CallText::open_text))]
fn put_open(
    out: &mut Vec<u8>,
    lanes: u32,
    budget: u32,
    params: &[u8],
    files: &[Listed],
) -> Result<(), AllocError>
    ensures { OnOk result (out.new.items ≡ out.old.items ++ open_text lanes budget params.now files.now) }
{
    out.extend_from_slice(b"Open ")?;
    put_number(out, lanes)?;
    out.push(b' ')?;
    put_number(out, budget)?;
    out.push(b' ')?;
    put_quoted(out, params)?;
    put_files(out, files)
}

fn put_files(out: &mut Vec<u8>, files: &[Listed]) -> Result<(), AllocError>
    ensures { OnOk result (out.new.items ≡ out.old.items ++ flat_map file_text files.now) }
{
    for file in files {
        put_file(out, file)?;
    }
    Ok(())
}

/// The name and the length of a listed file, with a space before them.
#[tactic(auto, unfolding(crate::specs::CallText::file_text))]
fn put_file(out: &mut Vec<u8>, file: &Listed) -> Result<(), AllocError>
    ensures { OnOk result (out.new.items ≡ out.old.items ++ file_text file.now) }
{
    out.push(b' ')?;
    out.extend_from_slice(file.name.as_bytes())?;
    out.push(b':')?;
    put_number(out, file.bytes.as_bytes().len())
}

#[tactic(auto, unfolding(crate::specs::CallText::compile_text))]
fn put_compile(out: &mut Vec<u8>, src: &[u8], dst: &[u8]) -> Result<(), AllocError>
    ensures { OnOk result (out.new.items ≡ out.old.items ++ compile_text src.now dst.now) }
{
    out.extend_from_slice(b"Compile ")?;
    put_quoted(out, src)?;
    out.push(b' ')?;
    put_quoted(out, dst)
}

#[tactic(auto, unfolding(crate::specs::CallText::run_text))]
fn put_run(out: &mut Vec<u8>, model: u32, params: &[u8]) -> Result<(), AllocError>
    ensures { OnOk result (out.new.items ≡ out.old.items ++ run_text model params.now) }
{
    out.extend_from_slice(b"Run ")?;
    put_number(out, model)?;
    out.push(b' ')?;
    put_quoted(out, params)
}

#[tactic(auto, unfolding(crate::specs::CallText::send_text))]
fn put_send(out: &mut Vec<u8>, to: Option<u32>, class: i32, value: i32) -> Result<(), AllocError>
    ensures { OnOk result (out.new.items ≡ out.old.items ++ send_text to class value) }
{
    out.extend_from_slice(b"Send ")?;
    put_receiver(out, to)?;
    out.push(b' ')?;
    put_number(out, class)?;
    out.push(b' ')?;
    put_number(out, value)
}

#[tactic(auto, unfolding(crate::specs::CallText::receiver_text))]
fn put_receiver(out: &mut Vec<u8>, to: Option<u32>) -> Result<(), AllocError>
    ensures { OnOk result (out.new.items ≡ out.old.items ++ receiver_text to) }
{
    match to {
        None => out.extend_from_slice(b"parent"),
        Some(model) => put_number(out, model),
    }
}

#[tactic(auto, unfolding(crate::specs::CallText::bytes_text))]
fn put_bytes(out: &mut Vec<u8>, word: &[u8], name: &[u8], bytes: &[u8]) -> Result<(), AllocError>
    ensures { OnOk result (out.new.items ≡ out.old.items ++ bytes_text word.now name.now bytes.now) }
{
    put_with_quoted(out, word, name)?;
    out.push(b' ')?;
    put_hex(out, bytes)
}

fn put_way(out: &mut Vec<u8>, way: Way) -> Result<(), AllocError>
    ensures { OnOk result (out.new.items ≡ out.old.items ++ way_text way) }
{
    match way {
        Way::Reads => out.extend_from_slice(b" read"),
        Way::Writes => out.extend_from_slice(b" write"),
    }
}
