//! Operands and answers as text: integers, `A..B` for all between two, `true`, `false`, `"` before a text,
//! `model3`, `event2:9`.

use mos_text::{FaultKind, Scalar, Text};
use mos_value::{Items, ValueFault, add_to_list, join_of, range_set};
use std::alloc::{AllocError, Global};
use tests_lines::decoded;

/// The bounds that a word has before and behind its two dots.
pub fn bounds(word: &str) -> (i32, i32) {
    let (first, last) = word.trim().split_once("..").unwrap_or((word, word));
    (first.parse().unwrap_or(0), last.parse().unwrap_or(0))
}

fn text_of(alloc: Global, word: &str) -> Result<Text, ValueFault> {
    let bytes = decoded(alloc, word)?;
    match Text::new(alloc, bytes.as_slice()) {
        Ok(text) => Ok(text),
        Err(_) => Err(ValueFault::NoMemory),
    }
}

/// The scalar that a word stands for.
pub fn scalar_of(alloc: Global, word: &str) -> Result<Scalar, ValueFault> {
    match word {
        "true" => Ok(Scalar::Bool(true)),
        "false" => Ok(Scalar::Bool(false)),
        _ => match word.strip_prefix('"') {
            Some(rest) => Ok(Scalar::Str(text_of(alloc, rest)?)),
            None => Ok(number_of(word)),
        },
    }
}

/// `model3`, `event2:9`, or an integer.
fn number_of(word: &str) -> Scalar {
    if let Some(number) = word.strip_prefix("model") {
        return Scalar::Model(number.parse().unwrap_or(0));
    }
    match word.strip_prefix("event") {
        Some(parts) => {
            let (class, value) = parts.split_once(':').unwrap_or((parts, "0"));
            Scalar::Event(class.parse().unwrap_or(0), value.parse().unwrap_or(0))
        }
        None => Scalar::Int(word.parse().unwrap_or(0)),
    }
}

fn add_word(alloc: Global, items: &mut Items, word: &str) -> Result<(), ValueFault> {
    if word.contains("..") {
        let (first, last) = bounds(word);
        add_to_list(alloc, items, &range_set(alloc, first, last)?)
    } else {
        items.push(scalar_of(alloc, word)?)
    }
}

/// The items that the words stand for.
pub fn items_of(alloc: Global, words: &str) -> Result<Items, ValueFault> {
    let mut items = Items::new(alloc);
    for word in words.split_whitespace() {
        add_word(alloc, &mut items, word)?;
    }
    Ok(items)
}

fn shown_scalar(alloc: Global, scalar: &Scalar) -> Result<String, AllocError> {
    match scalar {
        Scalar::Int(number) => format!(in alloc; "{number}"),
        Scalar::Bool(truth) => format!(in alloc; "{truth}"),
        Scalar::Str(text) => format!(in alloc; "\"{}", text.as_str()),
        Scalar::Model(number) => format!(in alloc; "model {number}"),
        Scalar::Event(class, value) => format!(in alloc; "event {class} {value}"),
    }
}

/// How many items there are, and which: of more than ten the first and the last.
pub fn shown(alloc: Global, items: &Items) -> Result<String, AllocError> {
    let mut said = format!(in alloc; "{}:", items.len())?;
    for (place, item) in items.as_slice().iter().enumerate() {
        if items.len() <= 10 || place == 0 || place == items.len() - 1 {
            let item = shown_scalar(alloc, item)?;
            said.push_str(" ")?;
            said.push_str(item.as_str())?;
        }
    }
    Ok(said)
}

/// The word of a fault.
pub fn word_of(fault: ValueFault) -> &'static str {
    match fault {
        ValueFault::Fault(FaultKind::Overflow) => "OVERFLOW",
        ValueFault::Fault(FaultKind::DivZero) => "DIVZERO",
        ValueFault::Fault(FaultKind::TooBig) => "TOOBIG",
        ValueFault::Fault(_) => "another fault",
        ValueFault::NoMemory => "no memory",
    }
}

/// How long a text is, and its first twenty bytes.
pub fn begun(alloc: Global, text: &Text) -> Result<String, AllocError> {
    let start = text.as_bytes().get(..20).unwrap_or(text.as_bytes());
    let start = std::str::from_utf8(start).unwrap_or("cut within a character");
    format!(in alloc; "{}: {start}", text.as_bytes().len())
}

fn joined_texts(alloc: Global, left: &str, right: &str) -> Result<Text, ValueFault> {
    join_of(alloc, &text_of(alloc, left)?, &text_of(alloc, right)?)
}

/// How long the join of two texts is, and its first twenty bytes.
pub fn joined(alloc: Global, left: &str, right: &str) -> Result<String, AllocError> {
    match joined_texts(alloc, left, right) {
        Ok(text) => begun(alloc, &text),
        Err(fault) => String::from_str(alloc, word_of(fault)),
    }
}
