//! The next lexeme: what stands at the front of bytes, a gap, a token or a fault.
ghost use Rattle.std.specs.Prelude.{◌≡◌, ◌≤◌, ◌<◌, ◌+◌, ◌≢◌, ℕ, List, [], false, None, nat_lt, length, IfSome, option_map};
ghost use Rattle.mos_scan.specs.Tokens as spec;
ghost use Rattle.mos_scan.specs.Lexemes as model;

use crate::TokenKind;
use crate::character::{
    begins_name, begins_with, digits_length, is_blank, is_escape, is_quote, line_length,
    word_length,
};
use crate::number::number;
use crate::reserved_word::{end_at, is_refused, plain_word};
use crate::symbol::{one_byte, two_bytes};

/// What is wrong at a place, apart from the word that a kind names.
#[derive(Clone, Copy, Debug, PartialEq, Eq)]
pub(crate) enum LexicalError {
    Char,
    Real,
    Number,
    Text,
    Comment,
    Out,
}

/// What stands at the front of the bytes: a gap of so many bytes, a token of so many, or a fault at
/// this offset from the front.
#[derive(Clone, Copy, Debug, PartialEq, Eq)]
pub(crate) enum Lexeme {
    Gap(usize),
    Token(TokenKind, usize),
    Fault(LexicalError, usize),
}

fn comment_end(text: &[u8]) -> Option<usize>
    ensures value { result ≡ spec.comment_end 2 text.now }
    ensures within { IfSome result (λ n. (0 < n) × (n ≤ length text.now + 2)) }
{
    let mut rest = text;
    let mut at = 2;
    while let [byte, after @ ..] = rest {
        if *byte == b'!' && begins_with(b')', after) {
            return Some(at + 2);
        }
        at += 1;
        rest = after;
    }
    None
}

/// The length of the blank or comment at the front.
#[tactic(auto, unfolding(crate::specs::Tokens::gap_at))]
fn gap_at(text: &[u8]) -> Option<usize>
    ensures value { result ≡ spec.gap_at text.now }
    ensures within { IfSome result (λ n. (0 < n) × (n ≤ length text.now)) }
{
    match text {
        [] => None,
        [byte, ..] if is_blank(*byte) => Some(1),
        [b'!', rest @ ..] => Some(line_length(rest) + 1),
        [b'(', b'!', rest @ ..] => comment_end(rest),
        _ => None,
    }
}

/// The length of the text in quotes behind its first quote, where it is closed on its line.
fn closing_quote(quote: u8, text: &[u8]) -> Option<usize>
    ensures value { result ≡ spec.closing_quote quote false 0 text.now }
    ensures within { IfSome result (λ n. n ≤ length text.now) }
{
    let mut rest = text;
    let mut escaped = false;
    let mut at = 0;
    while let [byte, after @ ..] = rest {
        if *byte == b'\n' {
            return None;
        }
        if !escaped && *byte == quote {
            return Some(at + 1);
        }
        escaped = !escaped && quote == b'"' && *byte == b'\\';
        at += 1;
        rest = after;
    }
    None
}

fn bad_escape(text: &[u8]) -> Option<usize>
    ensures value { result ≡ spec.bad_escape false 0 text.now }
    ensures within { IfSome result (λ n. n ≤ length text.now) }
{
    let mut rest = text;
    let mut escaped = false;
    let mut at = 0;
    while let [byte, after @ ..] = rest {
        if escaped && !is_escape(*byte) {
            return Some(at);
        }
        escaped = !escaped && *byte == b'\\';
        at += 1;
        rest = after;
    }
    None
}

/// Whether the digits stand for a number above 2147483647.
fn is_large(digits: &[u8]) -> bool
    ensures { result ≡ nat_lt 2147483647 (spec.number_from 0 digits.now) }
{
    number(digits) > 2147483647
}

/// What makes the digits before the text no number.
fn spoils(text: &[u8]) -> Option<LexicalError>
    ensures { (whole : List ℕ)
        → option_map (model.kind_of_error whole) result ≡ spec.spoils text.now }
{
    match text {
        [] => None,
        [b'e' | b'E', ..] => Some(LexicalError::Real),
        [byte, ..] if begins_name(*byte) => Some(LexicalError::Char),
        [b'.', rest @ ..] if !begins_with(b'.', rest) => Some(LexicalError::Real),
        _ => None,
    }
}

/// The fault of digits with what spoils them.
fn spoilt_or_large(spoilt: Option<LexicalError>, digits: &[u8]) -> Option<(LexicalError, usize)>
    ensures value { (whole : List ℕ) → model.kind_and_offset whole result
        ≡ spec.spoilt_or_large (option_map (model.kind_of_error whole) spoilt) digits.now }
    ensures within { IfSome result (λ x. x.1 ≡ 0) }
{
    match spoilt {
        Some(error) => Some((error, 0)),
        None if is_large(digits) => Some((LexicalError::Number, 0)),
        None => None,
    }
}

/// The fault of the number at the front.
#[tactic(auto, unfolding(crate::specs::Tokens::number_fault))]
fn number_fault(text: &[u8]) -> Option<(LexicalError, usize)>
    ensures value { (whole : List ℕ)
        → model.kind_and_offset whole result ≡ spec.number_fault text.now }
    ensures within { IfSome result (λ x. x.1 ≤ length text.now) }
{
    let (digits, rest) = text.split_at(digits_length(text));
    spoilt_or_large(spoils(rest), digits)
}

#[tactic(auto, unfolding(crate::specs::Tokens::text_fault))]
fn text_fault(quote: u8, text: &[u8]) -> Option<(LexicalError, usize)>
    ensures value { (whole : List ℕ)
        → model.kind_and_offset whole result ≡ spec.text_fault quote text.now }
    ensures within { IfSome result (λ x. x.1 ≤ length text.now) }
{
    let Some(length) = closing_quote(quote, text) else {
        return Some((LexicalError::Text, 0));
    };
    let (inside, _) = text.split_at(length);
    if quote != b'"' {
        return None;
    }
    match bad_escape(inside) {
        Some(offset) => Some((LexicalError::Char, offset)),
        None => None,
    }
}

/// What is wrong with the word at the front.
#[tactic(auto, unfolding(crate::specs::Tokens::word_fault))]
fn word_fault(text: &[u8]) -> Option<(LexicalError, usize)>
    ensures value { model.kind_and_offset text.now result ≡ spec.word_fault text.now }
    ensures within { IfSome result (λ x. x.1 ≤ length text.now) }
{
    let (word, _) = text.split_at(word_length(text));
    if is_refused(word) {
        Some((LexicalError::Out, 0))
    } else {
        None
    }
}

fn symbol_fault(first: u8, rest: &[u8]) -> Option<(LexicalError, usize)>
    ensures value { (whole : List ℕ)
        → model.kind_and_offset whole result ≡ spec.symbol_fault first rest.now }
    ensures within { IfSome result (λ x. x.1 ≡ 0) }
{
    if first == b'(' && begins_with(b'!', rest) {
        return Some((LexicalError::Comment, 0));
    }
    match one_byte(first) {
        Some(_) => None,
        None => Some((LexicalError::Char, 0)),
    }
}

/// The fault at the front, where no gap begins.
#[tactic(auto, unfolding(crate::specs::Tokens::fault_at))]
fn fault_at(text: &[u8]) -> Option<(LexicalError, usize)>
    ensures value { model.kind_and_offset text.now result ≡ spec.fault_at text.now }
    ensures within { IfSome result (λ x. x.1 ≤ length text.now) }
{
    let [first, rest @ ..] = text else {
        return None;
    };
    if begins_name(*first) {
        word_fault(text)
    } else if first.is_ascii_digit() {
        number_fault(text)
    } else if is_quote(*first) {
        text_fault(*first, rest)
    } else {
        symbol_fault(*first, rest)
    }
}

#[tactic(auto, unfolding(crate::specs::Lexemes::word_at))]
fn word_at(text: &[u8]) -> (TokenKind, usize)
    ensures value { result ≡ model.word_at text.now }
    ensures within { result.1 ≤ length text.now }
{
    if let Some(found) = end_at(text) {
        return found;
    }
    let length = word_length(text);
    let (word, _) = text.split_at(length);
    (plain_word(word), length)
}

fn one_at(first: u8) -> (TokenKind, usize)
    ensures { result ≡ model.two_or_one None first }
{
    (one_byte(first).unwrap_or(TokenKind::Newline), 1)
}

fn symbol_at(first: u8, rest: &[u8]) -> (TokenKind, usize)
    ensures value { result ≡ model.symbol_at first rest.now }
    ensures within { result.1 ≤ length rest.now + 1 }
{
    let [second, ..] = rest else {
        return one_at(first);
    };
    match two_bytes(first, *second) {
        Some(kind) => (kind, 2),
        None => one_at(first),
    }
}

fn quoted_at(quote: u8, rest: &[u8]) -> (TokenKind, usize)
    ensures value { result ≡ model.quoted_at quote rest.now }
    ensures within { result.1 ≤ length rest.now + 1 }
{
    (TokenKind::Text, closing_quote(quote, rest).unwrap_or(0) + 1)
}

/// The token at the front, where no gap and no fault is.
#[tactic(auto, unfolding(crate::specs::Lexemes::token_at))]
fn token_at(text: &[u8]) -> (TokenKind, usize)
    ensures value { result ≡ model.token_at text.now }
    ensures within { result.1 ≤ length text.now }
{
    let [first, rest @ ..] = text else {
        return (TokenKind::Newline, 0);
    };
    if begins_name(*first) {
        word_at(text)
    } else if first.is_ascii_digit() {
        (TokenKind::Number, digits_length(text))
    } else if is_quote(*first) {
        quoted_at(*first, rest)
    } else {
        symbol_at(*first, rest)
    }
}

/// What stands at the front.
pub(crate) fn next_lexeme(text: &[u8]) -> Lexeme
    requires { text.now ≢ [] }
    ensures stands { model.Stands text.now result }
    ensures within { model.Within result (length text.now) }
{
    if let Some(length) = gap_at(text) {
        return Lexeme::Gap(length);
    }
    if let Some((error, offset)) = fault_at(text) {
        return Lexeme::Fault(error, offset);
    }
    let (kind, length) = token_at(text);
    Lexeme::Token(kind, length)
}
