//! What the words of a command line and lists of names answer.

use mos_names::Names;
use mos_text::{NoMemory, Text};
use mos_words::{Command, WordFault};
use std::alloc::{AllocError, Global};

/// The texts between the blanks.
fn parts(alloc: Global, bytes: &[u8]) -> Option<Vec<Text>> {
    let mut found = Vec::new(alloc);
    for part in bytes.split(|byte| *byte == b' ') {
        found.push(Text::new(alloc, part).ok()?).ok()?;
    }
    Some(found)
}

fn shown(alloc: Global, command: &Command) -> Result<String, AllocError> {
    match command {
        Command::Run {
            source,
            lanes,
            budget,
        } => format!(in alloc; "run {} lanes {lanes} budget {budget}", source.as_str()),
    }
}

/// The command of the words between the blanks.
pub fn command(alloc: Global, bytes: &[u8]) -> Result<String, AllocError> {
    let Some(words) = parts(alloc, bytes) else {
        return String::from_str(alloc, "not text");
    };
    match mos_words::command(alloc, words.as_slice()) {
        Ok(command) => shown(alloc, &command),
        Err(WordFault::Usage) => String::from_str(alloc, "usage"),
        Err(WordFault::NoMemory) => String::from_str(alloc, "no memory"),
    }
}

fn noted(alloc: Global, texts: &[Text]) -> Result<Names, NoMemory> {
    let mut names = Names::new(alloc);
    for text in texts {
        names.note(text)?;
    }
    Ok(names)
}

/// How many distinct names there are, and the place of each text among them.
fn places(alloc: Global, names: &Names, texts: &[Text]) -> Result<String, AllocError> {
    let mut said = format!(in alloc; "{} names, empty {}:", names.len(), names.is_empty())?;
    for text in texts {
        let one = format!(in alloc; " {}", names.place(text))?;
        said.push_str(one.as_str())?;
    }
    Ok(said)
}

/// Notes all texts between the blanks but the last, and says the place of each.
pub fn names(alloc: Global, bytes: &[u8]) -> Result<String, AllocError> {
    let Some(texts) = parts(alloc, bytes) else {
        return String::from_str(alloc, "not text");
    };
    let some = texts.get(..texts.len().saturating_sub(1)).unwrap_or(&[]);
    match noted(alloc, some) {
        Ok(names) => places(alloc, &names, texts.as_slice()),
        Err(_) => String::from_str(alloc, "no memory"),
    }
}
