//! The tokens of a source, or its lexical fault.
ghost use Rattle.std.specs.Prelude.{◌≡◌, ◌≤◌, ◌<◌, ◌+◌, ◌-◌, ◌^◌, ℕ, List, take, length, IfOk, IfErr, IsUtf8};
ghost use Rattle.std.specs.List.{prefix_len};
ghost use Rattle.mos_scan.specs.Characters.{is_word};
ghost use Rattle.std.specs.Str.Lossy.{utf8_valid_len};
ghost use Rattle.mos_scan.specs.Cuts as spec;
ghost use Rattle.mos_scan.specs.Scans as scans;
ghost use Rattle.mos_scan.specs.Scanning as scanning;
ghost use Rattle.mos_scan.specs.Lexemes as lexemes;
ghost use Rattle.mos_text.specs.Limits.{source_limit};
ghost use Rattle.mos_scan.specs.declared.token.Token.{Token as token_type};
ghost use Rattle.mos_text.specs.declared.kind.Kind.{Kind as kind_type};

use crate::character::word_length;
use crate::lexeme::{Lexeme, LexicalError, next_lexeme};
use crate::{LexFault, Token, TokenKind};
use mos_text::{Kind, NoMemory, Text, TextFault};
use std::alloc::Global;

/// How a source is cut.
#[derive(Debug, Drop)]
enum Cut {
    /// All that is read, and the place behind it.
    Whole(Vec<Token>, u32),
    /// The place of the first fault, and its kind.
    Stopped(u32, Kind),
}

fn is_end_model(kind: TokenKind) -> bool
    ensures { result ≡ spec.is_end_model kind }
{
    match kind {
        TokenKind::EndModel => true,
        _ => false,
    }
}

fn newlines(text: &[u8]) -> usize
    ensures value { result ≡ spec.newlines text.now }
    ensures within { result ≤ length text.now }
{
    text.iter().filter(|byte| **byte == b'\n').count()
}

fn cut_all(alloc: Global, bytes: &[u8]) -> Result<Cut, NoMemory>
    requires { length bytes.now ≤ source_limit }
    ensures { IfOk result (scanning.IsCut bytes.now) }
{
    let mut tokens = Vec::new(alloc);
    let mut rest = bytes;
    let mut at: u32 = 0;
    let mut line: u32 = 1;
    while !rest.is_empty() {
        match next_lexeme(rest) {
            Lexeme::Fault(error, offset) => {
                let kind = kind_of(alloc, error, rest)?;
                return Ok(Cut::Stopped(at + offset as u32, kind));
            }
            Lexeme::Gap(length) => {
                let (text, after) = rest.split_at(length);
                line += newlines(text) as u32;
                at += length as u32;
                rest = after;
            }
            Lexeme::Token(kind, length) => {
                let (text, after) = rest.split_at(length);
                let to = at + length as u32;
                tokens.push(Token {
                    kind,
                    line,
                    from: at,
                    to,
                })?;
                if is_end_model(kind) {
                    return Ok(Cut::Whole(tokens, to));
                }
                line += newlines(text) as u32;
                at = to;
                rest = after;
            }
        }
    }
    Ok(Cut::Whole(tokens, at))
}

/// How many bytes are UTF-8, from the front.
fn valid_length(bytes: &[u8]) -> usize
    ensures value { result ≡ utf8_valid_len bytes.now }
    ensures within { result ≤ length bytes.now }
{
    match std::str::from_utf8(bytes) {
        Ok(_) => bytes.len(),
        Err(fault) => fault.valid_up_to(),
    }
}

/// The line that comes behind these bytes, from 1.
pub fn line_behind(before: &[u8]) -> u32
    requires { length before.now ≤ source_limit }
    ensures { result ≡ spec.line_behind before.now }
{
    newlines(before) as u32 + 1
}

fn is_continuation(byte: u8) -> bool
    ensures { result ≡ spec.is_continuation byte }
{
    128 <= byte && byte < 192
}

fn column_behind(column: u32, byte: u8) -> u32
    requires { column < 2 ^ 32 - 1 }
    ensures value { result ≡ spec.column_behind column byte }
    ensures near { result ≤ column + 1 }
{
    if byte == b'\n' {
        1
    } else if is_continuation(byte) {
        column
    } else {
        column + 1
    }
}

/// The column of a place.
fn column_of(before: &[u8]) -> u32
    requires { length before.now ≤ source_limit }
    ensures { result ≡ spec.column_from 1 before.now }
{
    let mut column = 1;
    for byte in before {
        column = column_behind(column, *byte);
    }
    column
}

fn fault_at(bytes: &[u8], place: usize, kind: Kind) -> LexFault
    requires room { length bytes.now ≤ source_limit }
    requires within { place ≤ length bytes.now }
    ensures { scans.Names result bytes.now place kind }
{
    let (before, _) = bytes.split_at(place);
    LexFault::At {
        line: line_behind(before),
        column: column_of(before),
        kind,
    }
}

fn text_of(alloc: Global, word: &[u8]) -> Result<Text, NoMemory>
    requires { IsUtf8 word.now }
    ensures { IfOk result (λ text. text ≡ word.now) }
{
    match Text::new(alloc, word) {
        Ok(text) => Ok(text),
        Err(TextFault::NoMemory) => Err(NoMemory),
        Err(TextFault::NotText) => unreachable!(),
    }
}

/// The word at the front.
fn word_at(alloc: Global, rest: &[u8]) -> Result<Text, NoMemory>
    ensures { IfOk result (λ word. word ≡ take (prefix_len is_word rest.now) rest.now) }
{
    let (word, _) = rest.split_at(word_length(rest));
    text_of(alloc, word)
}

/// The kind of a fault at the front of the bytes.
fn kind_of(alloc: Global, error: LexicalError, rest: &[u8]) -> Result<Kind, NoMemory>
    ensures { IfOk result (λ kind. kind ≡ lexemes.kind_of_error rest.now error) }
{
    Ok(match error {
        LexicalError::Char => Kind::Char,
        LexicalError::Real => Kind::Real,
        LexicalError::Number => Kind::Number,
        LexicalError::Text => Kind::Str,
        LexicalError::Comment => Kind::Comment,
        LexicalError::Out => Kind::Out(word_at(alloc, rest)?),
    })
}

/// The tokens of a source, up to the first `end-model`; nothing behind it is read.
///
/// Refused is the first place that no token list gets over: bytes that are no UTF-8, or a byte,
/// literal, text, comment or word that is no token.
pub fn scan(alloc: Global, bytes: &[u8]) -> Result<Vec<Token>, LexFault>
    requires { length bytes.now ≤ source_limit }
    ensures found { IfOk result (λ v. spec.IsTokenList bytes.now v.items) }
    ensures fault { IfErr result (scans.IsFaultOf bytes.now) }
    ensures only { (tokens : List token_type) → spec.IsTokenList bytes.now tokens
        → IfOk result (λ v. v.items ≡ tokens) }
    ensures taken { (tokens : List token_type) → spec.IsTokenList bytes.now tokens
        → IfErr result scans.IsNoMemory }
    ensures named { (place : ℕ) (kind : kind_type) → spec.IsLexicalFault bytes.now place kind
        → scans.GivesFault result bytes.now place kind }

    // At most one token for each byte.
    ensures few { IfOk result (λ v. length v.items ≤ length bytes.now) }
{
    scan_all(alloc, bytes)
}

fn scan_all(alloc: Global, bytes: &[u8]) -> Result<Vec<Token>, LexFault>
    requires { length bytes.now ≤ source_limit }
    ensures found { IfOk result (λ v. spec.IsTokenList bytes.now v.items) }
    ensures fault { IfErr result (scans.IsFaultOf bytes.now) }
{
    let valid = valid_length(bytes);
    match cut_all(alloc, bytes)? {
        Cut::Whole(tokens, read) => {
            if valid < read as usize {
                Err(fault_at(bytes, valid, Kind::Utf8))
            } else {
                Ok(tokens)
            }
        }
        Cut::Stopped(place, kind) => {
            if valid <= place as usize {
                Err(fault_at(bytes, valid, Kind::Utf8))
            } else {
                Err(fault_at(bytes, place as usize, kind))
            }
        }
    }
}
