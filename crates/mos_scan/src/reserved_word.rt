//! Reserved words and words that are left out.
ghost use Rattle.std.specs.Prelude.{◌≡◌, ◌≤◌, ◌+◌, length, map, IfSome, IsTrue};
ghost use Rattle.std.specs.List.{list_any};
ghost use Rattle.std.specs.Char.{is_ascii_lowercase, is_ascii_uppercase};
ghost use Rattle.mos_scan.specs.ReservedWords as spec;
ghost use Rattle.mos_scan.specs.Lexemes as model;

use crate::TokenKind;
use crate::vocabulary::{ENDS, REFUSED, RESERVED};

fn has_capital(text: &[u8]) -> bool
    ensures { result ≡ list_any is_ascii_uppercase text.now }
{
    text.iter().any(|byte| byte.is_ascii_uppercase())
}

fn has_small(text: &[u8]) -> bool
    ensures { result ≡ list_any is_ascii_lowercase text.now }
{
    text.iter().any(|byte| byte.is_ascii_lowercase())
}

/// Whether the text has no capital letter, or no small one.
fn in_one_case(text: &[u8]) -> bool
    ensures { result ≡ spec.in_one_case text.now }
{
    !has_capital(text) || !has_small(text)
}

/// Whether the words are the same but for the case of their letters.
#[tactic(auto, unfolding(crate::specs::ReservedWords::same_word))]
fn same_word(a: &[u8], b: &[u8]) -> bool
    ensures { result ≡ spec.same_word a.now b.now }
{
    a.eq_ignore_ascii_case(b)
}

/// What the table says of the word, in whatever case.
pub(crate) fn look_up(mut table: &[(&[u8], TokenKind)], word: &[u8]) -> Option<TokenKind>
    ensures { result ≡ spec.look_up (map (λ k. (k.0.now, k.1)) table.entry.now) word.now }
{
    while let [entry, rest @ ..] = table {
        if same_word(entry.0, word) {
            return Some(entry.1);
        }
        table = rest;
    }
    None
}

/// Whether the word is one that is left out.
#[tactic(auto, unfolding(crate::specs::ReservedWords::is_refused))]
pub(crate) fn is_refused(word: &[u8]) -> bool
    ensures { result ≡ spec.is_refused word.now }
{
    in_one_case(word) && stands_in(&REFUSED, word)
}

fn stands_in(words: &[&[u8]], word: &[u8]) -> bool
    ensures { result ≡ list_any (λ k. spec.same_word k.now word.now) words.now }
{
    words.iter().any(|k| same_word(k, word))
}

/// What a word without `end-` is: reserved, or a name.
#[tactic(auto, unfolding(crate::specs::ReservedWords::plain_word))]
pub(crate) fn plain_word(word: &[u8]) -> TokenKind
    ensures { result ≡ spec.plain_word word.now }
{
    if in_one_case(word) {
        look_up(&RESERVED, word).unwrap_or(TokenKind::Name)
    } else {
        TokenKind::Name
    }
}

/// The first entry with which the text begins, `end-` aside, with all in one case.
fn front_end(mut table: &[(&[u8], TokenKind)], text: &[u8]) -> Option<(TokenKind, usize)>
    requires { 4 ≤ length text.now }
    ensures value { result
        ≡ model.front_end (map (λ k. (k.0.now, k.1)) table.entry.now) text.now }
    ensures within { IfSome result (λ x. (4 ≤ x.1) × (x.1 ≤ length text.now)) }
{
    while let [entry, rest @ ..] = table {
        if is_front(entry.0, text) {
            return Some((entry.1, entry.0.len() + 4));
        }
        table = rest;
    }
    None
}

fn is_front(tail: &[u8], text: &[u8]) -> bool
    requires { 4 ≤ length text.now }
    ensures value { result ≡ model.is_front tail.now text.now }
    ensures within { IsTrue result → length tail.now + 4 ≤ length text.now }
{
    let room = text.len() - 4;
    if room < tail.len() {
        return false;
    }
    let (word, _) = text.split_at(tail.len() + 4);
    let (_, rest) = word.split_at(4);
    same_word(tail, rest) && in_one_case(word)
}

/// The `end-` word with which the text begins, and its length.
#[tactic(auto, unfolding(crate::specs::Lexemes::end_at))]
pub(crate) fn end_at(text: &[u8]) -> Option<(TokenKind, usize)>
    ensures value { result ≡ model.end_at text.now }
    ensures within { IfSome result (λ x. (4 ≤ x.1) × (x.1 ≤ length text.now)) }
{
    match text {
        [e, n, d, b'-', ..] => {
            if same_word(&[*e, *n, *d], b"end") {
                front_end(&ENDS, text)
            } else {
                None
            }
        }
        _ => None,
    }
}
