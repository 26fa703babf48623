//! What kinds of refusal and kinds of fault answer.

use mos_text::{FaultKind, Kind, Text};
use std::alloc::{AllocError, Global};

/// The kinds of fault by their numbers.
const FAULTS: [FaultKind; 22] = [
    FaultKind::Overflow,
    FaultKind::DivZero,
    FaultKind::Range,
    FaultKind::Empty,
    FaultKind::TooBig,
    FaultKind::Depth,
    FaultKind::OutFull,
    FaultKind::BadParam,
    FaultKind::EventClass,
    FaultKind::BadName,
    FaultKind::BadData,
    FaultKind::NoLabel,
    FaultKind::NoFile,
    FaultKind::NoLane,
    FaultKind::QueueFull,
    FaultKind::TooManyRuns,
    FaultKind::HubFull,
    FaultKind::PipeBusy,
    FaultKind::Broken,
    FaultKind::NoImage,
    FaultKind::NotLoaded,
    FaultKind::Busy,
];

/// The kinds of refusal without a name, in the order of their type.
const PLAIN: [Kind; 18] = [
    Kind::None,
    Kind::Utf8,
    Kind::Char,
    Kind::Number,
    Kind::Real,
    Kind::Str,
    Kind::Comment,
    Kind::Syntax,
    Kind::Deep,
    Kind::Jobs,
    Kind::Forward,
    Kind::Loop,
    Kind::Return,
    Kind::Const,
    Kind::Flat,
    Kind::Args,
    Kind::NoType,
    Kind::Size,
];

/// The number and the word of the fault whose place among all is so many bytes long.
pub fn fault(alloc: Global, bytes: &[u8]) -> Result<String, AllocError> {
    match FAULTS.get(bytes.len()) {
        Some(kind) => format!(in alloc; "{} {}", kind.number(), kind.word()),
        None => String::from_str(alloc, "no such fault"),
    }
}

fn named(letter: u8, name: Text) -> Kind {
    match letter {
        b'o' => Kind::Out(name),
        b'm' => Kind::Module(name),
        b'u' => Kind::Unknown(name),
        b't' => Kind::Twice(name),
        _ => Kind::Prefix(name),
    }
}

fn shown(alloc: Global, kind: &Kind) -> Result<String, AllocError> {
    match (kind.copy(alloc), kind.name()) {
        (Ok(copy), Some(name)) => {
            let word = copy.word();
            format!(in alloc; "{} {}, copied {word}", kind.word(), name.as_str())
        }
        (Ok(copy), None) => {
            let word = copy.word();
            format!(in alloc; "{}, copied {word}", kind.word())
        }
        (Err(_), _) => String::from_str(alloc, "no memory"),
    }
}

/// A kind of refusal: a letter with the name behind it, or dots for its place among those without one.
pub fn kind(alloc: Global, bytes: &[u8]) -> Result<String, AllocError> {
    let letter = bytes.first().copied().unwrap_or(b'.');
    if letter == b'.' {
        return match PLAIN.get(bytes.len()) {
            Some(kind) => shown(alloc, kind),
            None => String::from_str(alloc, "no such kind"),
        };
    }
    match Text::new(alloc, bytes.get(1..).unwrap_or(&[])) {
        Ok(name) => shown(alloc, &named(letter, name)),
        Err(_) => String::from_str(alloc, "not text"),
    }
}
