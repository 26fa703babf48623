//! The line that is printed for a case.

use crate::case::Case;
use mos_text::{MemFolder, Text};
use mosel_run::Status;
use std::alloc::{AllocError, Global};

/// The number of the status, the counts of faults, what the sink has, and the bytes of each name
/// that was asked for.
pub fn said(alloc: Global, status: &Status, case: &Case) -> Result<String, AllocError> {
    let (code, gets, writes) = (status.code(), case.folder.faults(), case.sink.faults());
    let mut line = format!(in alloc; "{code} faults {gets} {writes} ")?;
    push_bytes(&mut line, case.sink.bytes())?;
    for name in &case.shown {
        push_file(&mut line, name, &case.folder)?;
    }
    Ok(line)
}

/// Bytes, with a bar for each newline.
fn push_bytes(line: &mut String, bytes: &[u8]) -> Result<(), AllocError> {
    for byte in bytes {
        let byte = *byte;
        let printed = if byte == b'\n' { b'|' } else { byte };
        line.push(printed as char)?;
    }
    Ok(())
}

/// A name with its bytes, in hexadecimal digits; a name without known bytes has `none`.
fn push_file(line: &mut String, name: &Text, folder: &MemFolder) -> Result<(), AllocError> {
    line.push(' ')?;
    line.push_str(name.as_str())?;
    line.push(' ')?;
    match folder.content(name) {
        Some(bytes) => push_digits(line, bytes),
        None => Ok(line.push_str("none")?),
    }
}

fn push_digits(line: &mut String, bytes: &[u8]) -> Result<(), AllocError> {
    for byte in bytes {
        let byte = *byte;
        line.push(digit(byte >> 4))?;
        line.push(digit(byte & 15))?;
    }
    Ok(())
}

fn digit(value: u8) -> char {
    match value {
        0..=9 => (b'0' + value) as char,
        10..=15 => (b'a' - 10 + value) as char,
        _ => '?',
    }
}
