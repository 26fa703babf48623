//! A case: the words, the folder and the sink.

use mos_text::{Blob, MemFolder, MemSink, NoMemory, Text};
use std::alloc::Global;

/// A case, read from its line.
#[derive(Drop)]
pub struct Case {
    pub words: Vec<Text>,
    pub folder: MemFolder,
    pub sink: MemSink,
    /// The names whose bytes are to be shown.
    pub shown: Vec<Text>,
}

/// What the fields of a line give.
#[derive(Drop)]
struct Fields {
    files: Vec<(Text, Blob)>,
    gets: Vec<u32>,
    puts: Vec<u32>,
    writes: Vec<u32>,
    piece: u32,
    shown: Vec<Text>,
}

impl Case {
    /// The case of a line.
    pub fn new(alloc: Global, line: &str) -> Result<Case, NoMemory> {
        let (words, rest) = line.split_once(';').unwrap_or((line, ""));
        let words = words_of(alloc, words)?;
        let fields = Fields::new(alloc, rest)?;
        let Fields {
            files,
            gets,
            puts,
            writes,
            piece,
            shown,
        } = fields;
        Ok(Case {
            words,
            folder: MemFolder::new(alloc, files, gets, puts),
            sink: MemSink::new(alloc, if piece == 0 { 1 } else { piece }, writes),
            shown,
        })
    }
}

/// The words of a text with blanks between them, the program's name first.
fn words_of(alloc: Global, text: &str) -> Result<Vec<Text>, NoMemory> {
    let mut words = Vec::new(alloc);
    words.push(text_of(alloc, "mosel")?)?;
    for word in text.split(' ') {
        words.push(text_of(alloc, word)?)?;
    }
    Ok(words)
}

fn text_of(alloc: Global, text: &str) -> Result<Text, NoMemory> {
    Ok(Text::from_string(String::from_str(alloc, text)?))
}

impl Fields {
    fn new(alloc: Global, text: &str) -> Result<Fields, NoMemory> {
        let mut fields = Fields {
            files: Vec::new(alloc),
            gets: Vec::new(alloc),
            puts: Vec::new(alloc),
            writes: Vec::new(alloc),
            piece: 1_000_000,
            shown: Vec::new(alloc),
        };
        for field in text.split(';') {
            if let Some((name, value)) = field.split_once('=') {
                fields.take(alloc, name, value)?;
            }
        }
        Ok(fields)
    }

    fn take(&mut self, alloc: Global, name: &str, value: &str) -> Result<(), NoMemory> {
        match name {
            "gets" => self.gets = numbers(alloc, value)?,
            "puts" => self.puts = numbers(alloc, value)?,
            "writes" => self.writes = numbers(alloc, value)?,
            "piece" => self.piece = value.parse::<u32>().unwrap_or(1),
            "show" => self.shown.push(text_of(alloc, value)?)?,
            "long" => self.add(alloc, value, blanks(alloc, 1_048_577)?)?,
            "full" => self.add(alloc, value, blanks(alloc, 1_048_576)?)?,
            _ => self.add(alloc, name, source(alloc, value)?)?,
        }
        Ok(())
    }

    fn add(&mut self, alloc: Global, name: &str, bytes: Blob) -> Result<(), NoMemory> {
        let name = text_of(alloc, name)?;
        Ok(self.files.push((name, bytes))?)
    }
}

/// The numbers of a text like `2,3`; a word that is none is 0.
fn numbers(alloc: Global, text: &str) -> Result<Vec<u32>, NoMemory> {
    let mut found = Vec::new(alloc);
    for part in text.split(',') {
        found.push(part.parse::<u32>().unwrap_or(0))?;
    }
    Ok(found)
}

fn blanks(alloc: Global, many: u32) -> Result<Blob, NoMemory> {
    let mut bytes = Vec::new(alloc);
    for _ in 0..many {
        bytes.push(b' ')?;
    }
    Ok(Blob::from_vec(bytes))
}

/// The bytes of a text, with a newline for each bar.
fn source(alloc: Global, text: &str) -> Result<Blob, NoMemory> {
    let mut bytes = Vec::new(alloc);
    for byte in text.as_bytes() {
        bytes.push(if *byte == b'|' { b'\n' } else { *byte })?;
    }
    Ok(Blob::from_vec(bytes))
}
