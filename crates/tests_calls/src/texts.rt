//! What texts, blobs, scalars and names of files answer, and the group of the calls on texts.

use crate::{kinds, lists};
use mos_text::{
    Blob, Scalar, SharedBlob, Text, TextFault, is_file_name, is_image_name, is_source_name,
};
use std::alloc::{AllocError, Global};
use tests_lines::decoded;

/// The answer to a case: a call, and the text that it is asked about.
pub fn answer(alloc: Global, case: &str) -> Result<String, AllocError> {
    let (subject, given) = case.split_once(' ').unwrap_or((case, ""));
    let bytes = decoded(alloc, given)?;
    match subject {
        "text" => text(alloc, bytes.as_slice()),
        "same" => same(alloc, bytes.as_slice()),
        "blob" => blob(alloc, bytes.as_slice()),
        "scalars" => scalars(alloc, bytes.as_slice()),
        "fault" => kinds::fault(alloc, bytes.as_slice()),
        "kind" => kinds::kind(alloc, bytes.as_slice()),
        "command" => lists::command(alloc, bytes.as_slice()),
        "names" => lists::names(alloc, bytes.as_slice()),
        "file" => file(alloc, bytes.as_slice()),
        _ => String::from_str(alloc, "no such subject"),
    }
}

fn refused(alloc: Global, fault: TextFault) -> Result<String, AllocError> {
    match fault {
        TextFault::NotText => String::from_str(alloc, "not text"),
        TextFault::NoMemory => String::from_str(alloc, "no memory"),
    }
}

/// Whether the bytes are a text, and that it has just these bytes.
fn text(alloc: Global, bytes: &[u8]) -> Result<String, AllocError> {
    match Text::new(alloc, bytes) {
        Ok(text) if text.as_bytes() == bytes && text.as_str().as_bytes() == bytes => {
            format!(in alloc; "text of {} bytes", bytes.len())
        }
        Ok(_) => String::from_str(alloc, "another text"),
        Err(fault) => refused(alloc, fault),
    }
}

/// The bytes before and behind the first bar.
fn halves(bytes: &[u8]) -> (&[u8], &[u8]) {
    let place = bytes
        .iter()
        .position(|byte| *byte == b'|')
        .unwrap_or(bytes.len());
    let behind = bytes.get(place..).unwrap_or(&[]);
    (
        bytes.get(..place).unwrap_or(&[]),
        behind.get(1..).unwrap_or(&[]),
    )
}

fn compared(alloc: Global, one: &Text, other: &Text) -> Result<String, AllocError> {
    match one.copy(alloc) {
        Ok(copy) => {
            let (same, own) = (one.is(other), one.is(&copy));
            format!(in alloc; "same {same}, copy {own}")
        }
        Err(_) => String::from_str(alloc, "no memory"),
    }
}

/// Whether the texts before and behind a bar are the same, and whether the first is its copy.
fn same(alloc: Global, bytes: &[u8]) -> Result<String, AllocError> {
    let (one, other) = halves(bytes);
    match (Text::new(alloc, one), Text::new(alloc, other)) {
        (Ok(one), Ok(other)) => compared(alloc, &one, &other),
        _ => String::from_str(alloc, "not text"),
    }
}

/// The bytes of a copy that is shared, when the first of the two that share it is gone.
fn shared(alloc: Global, bytes: &[u8]) -> Option<SharedBlob> {
    let blob = Blob::new(alloc, bytes).ok()?;
    let copy = Blob::from_vec(blob.copy(alloc).ok()?.into_vec());
    let first = SharedBlob::new(alloc, copy).ok()?;
    first.share().ok()
}

/// Whether a blob, its copy and what shares the copy have the bytes.
fn blob(alloc: Global, bytes: &[u8]) -> Result<String, AllocError> {
    match shared(alloc, bytes) {
        Some(found) => {
            let same = found.as_bytes() == bytes;
            format!(in alloc; "{} bytes, same {same}", found.as_bytes().len())
        }
        None => String::from_str(alloc, "no memory"),
    }
}

fn shown(alloc: Global, scalar: &Scalar) -> Result<String, AllocError> {
    match scalar.copy(alloc) {
        Ok(copy) => format!(in alloc; "{copy:?}"),
        Err(_) => String::from_str(alloc, "no memory"),
    }
}

/// A copy of a scalar: the text `s` and its bytes, or a letter alone for one of the others.
fn scalars(alloc: Global, bytes: &[u8]) -> Result<String, AllocError> {
    let scalar = match bytes {
        b"i" => Scalar::Int(-3),
        b"b" => Scalar::Bool(true),
        b"m" => Scalar::Model(2),
        b"e" => Scalar::Event(2, -1),
        _ => match Text::new(alloc, bytes) {
            Ok(text) => Scalar::Str(text),
            Err(fault) => return refused(alloc, fault),
        },
    };
    shown(alloc, &scalar)
}

fn endings(alloc: Global, name: &Text) -> Result<String, AllocError> {
    let (file, source, image) = (
        is_file_name(name),
        is_source_name(name),
        is_image_name(name),
    );
    format!(in alloc; "file {file}, source {source}, image {image}")
}

/// Whether the bytes are the name of a file, and end as that of a source or of an image.
fn file(alloc: Global, bytes: &[u8]) -> Result<String, AllocError> {
    match Text::new(alloc, bytes) {
        Ok(name) => endings(alloc, &name),
        Err(fault) => refused(alloc, fault),
    }
}
