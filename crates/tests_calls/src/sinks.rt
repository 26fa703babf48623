//! What sinks take.

use crate::devices::cut;
use mos_text::{Sink, Written, Wrote, write_whole};
use std::alloc::{AllocError, Global};
use std::io::{self, Error, ErrorKind, Write};
use tests_lines::decoded;

/// A writer: its first write is interrupted, its second takes two bytes, its third none, and then it is full.
#[derive(Drop)]
pub struct Scripted {
    step: usize,
    flushed: usize,
}

impl Scripted {
    pub fn new() -> Scripted {
        Scripted {
            step: 0,
            flushed: 0,
        }
    }
}

impl Write for Scripted {
    fn write(&mut self, buf: &[u8]) -> io::Result<usize> {
        self.step = self.step.saturating_add(1);
        match self.step {
            1 => Err(Error::from(ErrorKind::Interrupted)),
            2 => Ok(buf.len().min(2)),
            3 => Ok(0),
            _ => Err(Error::from(ErrorKind::StorageFull)),
        }
    }

    fn flush(&mut self) -> io::Result<()> {
        self.flushed = self.flushed.saturating_add(1);
        Ok(())
    }
}

fn wrote(alloc: Global, answer: Wrote) -> Result<String, AllocError> {
    match answer {
        Wrote::Took(count) => format!(in alloc; "took {count}"),
        Wrote::Failed => String::from_str(alloc, "failed"),
        Wrote::NoMemory => String::from_str(alloc, "no memory"),
    }
}

fn written(answer: Written) -> &'static str {
    match answer {
        Written::Whole => "whole",
        Written::Failed => "failed",
        Written::NoMemory => "no memory",
    }
}

/// What the sink answers to `write BYTES` or `all BYTES`.
pub fn answer<K: Sink>(alloc: Global, sink: &mut K, text: &str) -> Result<String, AllocError> {
    let (call, bytes) = cut(text, ' ');
    let bytes = decoded(alloc, bytes)?;
    if call == "write" {
        wrote(alloc, sink.write(bytes.as_slice()))
    } else {
        String::from_str(alloc, written(write_whole(sink, bytes.as_slice())))
    }
}
