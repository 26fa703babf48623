//! Words: what the grammar sees of tokens.
ghost use Rattle.std.specs.Prelude.{◌≡◌, ◌≤◌, ◌+◌, ◌-◌, false, take, drop, length, IfOk};
ghost use Rattle.mos_text.specs.Limits.{source_limit};
ghost use Rattle.mos_scan.specs.Reading as spec;

use crate::number::number;
use crate::{Piece, Token, TokenKind};
use mos_text::{NoMemory, SourceText, Text};
use std::alloc::Global;

/// What the grammar sees of a token.
#[derive(Debug, Drop)]
pub enum Word {
    /// A name.
    Name(SourceText),
    /// A literal, from 0 to 2147483647.
    Number(i32),
    /// A text without its quotes, with its escapes read.
    Text(SourceText),
    /// Any other token.
    Key(TokenKind),
}

/// The items from one place to another; none where there are none.
fn between<T>(items: &[T], from: usize, to: usize) -> &[T]
    ensures value { result.now ≡ take (to - from) (drop from items.now) }
    ensures within { length result.now ≤ length items.now }
{
    let (_, rest) = items.split_at(from.min(items.len()));
    let (found, _) = rest.split_at(to.saturating_sub(from).min(rest.len()));
    found
}

/// The value of a literal.
fn literal(digits: &[u8]) -> i32
    ensures { result ≡ spec.literal digits.now }
{
    number(digits).min(2147483647) as i32
}

/// The byte that an escape stands for.
fn escape_of(byte: u8) -> u8
    ensures { result ≡ spec.escape_of byte }
{
    if byte == b'n' {
        b'\n'
    } else if byte == b't' {
        b'\t'
    } else {
        byte
    }
}

/// The text with its escapes read.
fn without_escapes(alloc: Global, text: &[u8]) -> Result<Vec<u8>, NoMemory>
    ensures value { IfOk result (λ v. v.items ≡ spec.without_escapes false text.now) }
    ensures short { IfOk result (λ v. length v.items ≤ length text.now) }
{
    let mut read = Vec::new(alloc);
    let mut escaped = false;
    for byte in text {
        if escaped {
            read.push(escape_of(*byte))?;
            escaped = false;
        } else if *byte == b'\\' {
            escaped = true;
        } else {
            read.push(*byte)?;
        }
    }
    Ok(read)
}

/// The text, which is no longer than a source.
fn source_text(alloc: Global, text: &str) -> Result<SourceText, NoMemory>
    requires { length text.now ≤ source_limit }
    ensures { IfOk result (λ t. t ≡ text.now) }
{
    let text = Text::from_string(String::from_str(alloc, text)?);
    Ok(SourceText::new(text))
}

/// The word of these bytes, which are UTF-8 in what `scan` gives.
#[tactic(auto, unfolding(crate::specs::Reading::name_word))]
fn name_word(alloc: Global, bytes: &[u8]) -> Result<Word, NoMemory>
    requires { length bytes.now ≤ source_limit }
    ensures { IfOk result (λ word. word ≡ spec.name_word bytes.now) }
{
    match std::str::from_utf8(bytes) {
        Ok(text) => Ok(Word::Name(source_text(alloc, text)?)),
        Err(_) => Ok(Word::Key(TokenKind::Name)),
    }
}

/// The text of these bytes, which are UTF-8 in what `scan` gives.
#[tactic(auto, unfolding(crate::specs::Reading::text_word))]
fn text_word(alloc: Global, bytes: &[u8]) -> Result<Word, NoMemory>
    requires { length bytes.now ≤ source_limit }
    ensures { IfOk result (λ word. word ≡ spec.text_word bytes.now) }
{
    match std::str::from_utf8(bytes) {
        Ok(text) => Ok(Word::Text(source_text(alloc, text)?)),
        Err(_) => Ok(Word::Key(TokenKind::Text)),
    }
}

/// The text in these quotes.
#[tactic(auto, unfolding(crate::specs::Reading::quoted_word))]
fn quoted_word(alloc: Global, bytes: &[u8]) -> Result<Word, NoMemory>
    requires { length bytes.now ≤ source_limit }
    ensures { IfOk result (λ word. word ≡ spec.quoted_word bytes.now) }
{
    match bytes {
        [b'"', inside @ .., _] => text_word(alloc, without_escapes(alloc, inside)?.as_slice()),
        [_, inside @ .., _] => text_word(alloc, inside),
        _ => text_word(alloc, &[]),
    }
}

/// What the grammar sees of the token.
#[tactic(auto, unfolding(crate::specs::Reading::word_of))]
fn word_of(alloc: Global, source: &[u8], token: &Token) -> Result<Word, NoMemory>
    requires { length source.now ≤ source_limit }
    ensures { IfOk result (λ word. word ≡ spec.word_of source.now token.now) }
{
    let bytes = between(source, token.from as usize, token.to as usize);
    match token.kind {
        TokenKind::Name => name_word(alloc, bytes),
        TokenKind::Number => Ok(Word::Number(literal(bytes))),
        TokenKind::Text => quoted_word(alloc, bytes),
        kind => Ok(Word::Key(kind)),
    }
}

fn is_newline(kind: TokenKind) -> bool
    ensures { result ≡ spec.is_newline kind }
{
    matches!(kind, TokenKind::Newline)
}

/// What the grammar sees of tokens of a source: their words, the newlines passed over. The tokens
/// are neighbours in what `scan` gives for the source.
pub fn words(alloc: Global, source: &[u8], tokens: &[Token]) -> Result<Vec<Word>, NoMemory>
    requires { length source.now ≤ source_limit }
    ensures { IfOk result (λ v. v.items ≡ spec.words_of source.now tokens.now) }
{
    let mut found = Vec::new(alloc);
    for token in tokens {
        if !is_newline(token.kind) {
            found.push(word_of(alloc, source, token)?)?;
        }
    }
    Ok(found)
}

/// What the grammar sees of a piece of these tokens: its words.
pub fn piece_words(
    alloc: Global,
    source: &[u8],
    tokens: &[Token],
    piece: Piece,
) -> Result<Vec<Word>, NoMemory>
    requires { length source.now ≤ source_limit }
    ensures { IfOk result (λ v. v.items ≡ spec.piece_words source.now tokens.now piece) }
{
    let between = between(tokens, piece.from as usize, piece.to as usize);
    words(alloc, source, between)
}
