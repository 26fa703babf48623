//! What folders answer.

use crate::devices::{cut, name};
use mos_text::{DirFolder, Folder, Got, Stored};
use std::alloc::{AllocError, Global};
use std::fs::{self, Files};
use tests_lines::decoded;

/// Known bytes as text, with a dot for each byte that prints nothing.
pub fn shown(alloc: Global, bytes: Option<&[u8]>) -> Result<String, AllocError> {
    let Some(bytes) = bytes else {
        return String::from_str(alloc, "not known");
    };
    let mut said = format!(in alloc; "{} bytes ", bytes.len())?;
    for byte in bytes {
        let printed = if byte.is_ascii_graphic() { *byte } else { b'.' };
        said.push(printed as char)?;
    }
    Ok(said)
}

fn got(alloc: Global, answer: &Got) -> Result<String, AllocError> {
    match answer {
        Got::Bytes(blob) => shown(alloc, Some(blob.as_bytes())),
        Got::Missing => String::from_str(alloc, "missing"),
        Got::TooLarge => String::from_str(alloc, "too large"),
        Got::Failed => String::from_str(alloc, "failed"),
        Got::NoMemory => String::from_str(alloc, "no memory"),
    }
}

fn stored(answer: Stored) -> &'static str {
    match answer {
        Stored::Done => "done",
        Stored::Failed => "failed",
        Stored::NoMemory => "no memory",
    }
}

/// What the folder answers to `get LIMIT NAME` or `put NAME=BYTES`.
pub fn answer<F: Folder>(alloc: Global, folder: &mut F, text: &str) -> Result<String, AllocError> {
    let (call, rest) = cut(text, ' ');
    if call == "get" {
        let (limit, of) = cut(rest, ' ');
        let found = folder.get(alloc, &name(alloc, of)?, limit.parse::<u32>().unwrap_or(0));
        got(alloc, &found)
    } else {
        let (of, bytes) = cut(rest, '=');
        let bytes = decoded(alloc, bytes)?;
        String::from_str(
            alloc,
            stored(folder.put(alloc, &name(alloc, of)?, bytes.as_slice())),
        )
    }
}

/// What a new folder of the system answers, and how many faults it counted; `remove NAME` removes a file.
pub fn system<R: Files + AllocGlobal>(rt: &R, text: &str) -> Result<String, AllocError> {
    let alloc = rt.alloc();
    let (call, rest) = cut(text, ' ');
    if call == "remove" {
        let removed = fs::remove_file(rt, rest).is_ok();
        return format!(in alloc; "removed {removed}");
    }
    let mut folder = DirFolder::new(rt);
    let said = answer(alloc, &mut folder, text)?;
    format!(in alloc; "{}, {} faults", said.as_str(), folder.faults())
}
