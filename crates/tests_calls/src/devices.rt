//! The devices in memory, each as it stands.

use crate::{folders, sinks};
use mos_text::{Blob, MemFolder, MemSink, OutSink, SureFolder, SureSink, Text};
use sinks::Scripted;
use std::alloc::{AllocError, Global};
use tests_lines::decoded;

/// A folder and a sink that never fail, a folder and a sink that fail by list, and a writer that follows a script.
#[derive(Drop)]
pub struct Devices {
    sure: SureFolder,
    listed: MemFolder,
    whole: SureSink,
    pieces: MemSink,
    writer: OutSink<Scripted>,
}

/// The text before the first such byte, and the one behind it.
pub fn cut(text: &str, at: char) -> (&str, &str) {
    text.split_once(at).unwrap_or((text, ""))
}

/// The files of a text like `a=four b/c=`; those of which a part is no text are left out.
fn files(alloc: Global, text: &str) -> Result<Vec<(Text, Blob)>, AllocError> {
    let mut found = Vec::new(alloc);
    for part in text.split(' ') {
        let (name, bytes) = cut(part, '=');
        let bytes = decoded(alloc, bytes)?;
        if let Ok(name) = Text::new(alloc, name.as_bytes()) {
            found.push((name, Blob::from_vec(bytes)))?;
        }
    }
    Ok(found)
}

/// The numbers of a text like `2,3`; a word that is none is 0.
fn numbers(alloc: Global, text: &str) -> Result<Vec<u32>, AllocError> {
    let mut found = Vec::new(alloc);
    for part in text.split(',') {
        found.push(part.parse::<u32>().unwrap_or(0))?;
    }
    Ok(found)
}

impl Devices {
    pub fn new(alloc: Global) -> Devices {
        Devices {
            sure: SureFolder::new(Vec::new(alloc)),
            listed: MemFolder::new(alloc, Vec::new(alloc), Vec::new(alloc), Vec::new(alloc)),
            whole: SureSink::new(alloc),
            pieces: MemSink::new(alloc, 1, Vec::new(alloc)),
            writer: OutSink::new(Scripted::new()),
        }
    }

    /// A folder that fails by list begins with `GETS PUTS FILES`.
    fn begin_listed(&mut self, alloc: Global, text: &str) -> Result<String, AllocError> {
        let (gets, rest) = cut(text, ' ');
        let (puts, rest) = cut(rest, ' ');
        let (gets, puts) = (numbers(alloc, gets)?, numbers(alloc, puts)?);
        self.listed = MemFolder::new(alloc, files(alloc, rest)?, gets, puts);
        String::from_str(alloc, "begun")
    }

    /// A sink that fails by list begins with `PIECE WRITES`.
    fn begin_pieces(&mut self, alloc: Global, text: &str) -> Result<String, AllocError> {
        let (piece, writes) = cut(text, ' ');
        let writes = numbers(alloc, writes)?;
        let piece = piece.parse::<u32>().unwrap_or(1);
        if 0 < piece {
            self.pieces = MemSink::new(alloc, piece, writes);
        }
        String::from_str(alloc, "begun")
    }

    /// What the device of this name answers.
    pub fn answer(
        &mut self,
        alloc: Global,
        device: &str,
        text: &str,
    ) -> Result<String, AllocError> {
        match device {
            "sure" => folders::answer(alloc, &mut self.sure, text),
            "listed" => folders::answer(alloc, &mut self.listed, text),
            "whole" => sinks::answer(alloc, &mut self.whole, text),
            "pieces" => sinks::answer(alloc, &mut self.pieces, text),
            "writer" => sinks::answer(alloc, &mut self.writer, text),
            _ => self.state(alloc, device, text),
        }
    }

    /// What a device has, or that it has begun anew.
    fn state(&mut self, alloc: Global, device: &str, text: &str) -> Result<String, AllocError> {
        match device {
            "begin-sure" => {
                self.sure = SureFolder::new(files(alloc, text)?);
                String::from_str(alloc, "begun")
            }
            "begin-listed" => self.begin_listed(alloc, text),
            "begin-pieces" => self.begin_pieces(alloc, text),
            "known-sure" => folders::shown(alloc, self.sure.content(&name(alloc, text)?)),
            "known-listed" => folders::shown(alloc, self.listed.content(&name(alloc, text)?)),
            "bytes-of" if text == "whole" => folders::shown(alloc, Some(self.whole.bytes())),
            "bytes-of" => folders::shown(alloc, Some(self.pieces.bytes())),
            "faults-of" => self.faults(alloc, text),
            _ => String::from_str(alloc, "no such device"),
        }
    }

    fn faults(&self, alloc: Global, device: &str) -> Result<String, AllocError> {
        let count = match device {
            "listed" => self.listed.faults(),
            "pieces" => self.pieces.faults(),
            "writer" => self.writer.faults(),
            _ => 0,
        };
        format!(in alloc; "{count} faults")
    }
}

/// The text as a name.
pub fn name(alloc: Global, text: &str) -> Result<Text, AllocError> {
    Ok(Text::from_string(String::from_str(alloc, text)?))
}
