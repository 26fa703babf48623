//! What the readers of expressions, types and formals answer.

ghost use Rattle.std.specs.Prelude.{◌≤◌, length};

use mos_expr::ExprFault;
use mos_scan::{Piece, Token, Word};
use mos_text::let_go;
use std::alloc::{AllocError, Global};

/// The words of a source, as those of one piece; none where it has no tokens.
pub fn words_of(alloc: Global, source: &[u8]) -> Option<Vec<Word>>
    requires { length source.now ≤ 1048576 }
{
    let tokens = mos_scan::scan(alloc, source).ok()?;
    let whole = Piece {
        line: 1,
        from: 0,
        to: tokens.len() as u32,
    };
    mos_scan::piece_words(alloc, source, tokens.as_slice(), whole).ok()
}

/// The answer to a case on the words of a source.
pub fn on_words(alloc: Global, subject: &str, source: &[u8]) -> Result<String, AllocError>
    requires { length source.now ≤ 1048576 }
{
    match words_of(alloc, source) {
        Some(words) => answer(alloc, subject, words.as_slice()),
        None => String::from_str(alloc, "no words"),
    }
}

fn answer(alloc: Global, subject: &str, words: &[Word]) -> Result<String, AllocError> {
    match subject {
        "words" => format!(in alloc; "{} words", words.len()),
        "expressions" => expressions(alloc, words),
        "index" => index(alloc, words),
        "is-type" => String::from_str(alloc, said(mos_typing::type_form(alloc, words))),
        "is-formals" => String::from_str(alloc, said(mos_typing::formals(alloc, words))),
        "names" => names(alloc, words),
        _ => String::from_str(alloc, "no such subject"),
    }
}

/// The word for a result.
fn said<T: Drop>(found: Result<T, ExprFault>) -> &'static str {
    match found {
        Ok(tree) => {
            let_go(tree);
            "ok"
        }
        Err(ExprFault::NoExpr) => "none",
        Err(ExprFault::Deep) => "deep",
        Err(ExprFault::NoMemory) => "no memory",
    }
}

/// Whether a source is one expression.
pub fn expression(alloc: Global, source: &[u8]) -> Result<String, AllocError>
    requires { length source.now ≤ 1048576 }
{
    match mos_scan::scan(alloc, source) {
        Ok(tokens) => String::from_str(alloc, slice(alloc, source, tokens.as_slice())),
        Err(_) => String::from_str(alloc, "no tokens"),
    }
}

fn slice(alloc: Global, source: &[u8], tokens: &[Token]) -> &'static str
    requires { length source.now ≤ 1048576 }
{
    said(mos_expr::expression(alloc, source, tokens))
}

/// Which slices of the tokens of a source are expressions, as pairs of places.
pub fn slices(alloc: Global, source: &[u8]) -> Result<String, AllocError>
    requires { length source.now ≤ 1048576 }
{
    let mut found = String::new(alloc);
    if let Ok(tokens) = mos_scan::scan(alloc, source) {
        for from in 0..tokens.len() {
            for to in from..tokens.len() {
                let part = tokens.get(from..to + 1).unwrap_or(&[]);
                if slice(alloc, source, part) == "ok" {
                    let one = format!(in alloc; " {from}-{to}")?;
                    found.push_str(one.as_str())?;
                }
            }
        }
    }
    Ok(found)
}

/// How many expressions with commas between them the words are.
fn expressions(alloc: Global, words: &[Word]) -> Result<String, AllocError> {
    match mos_expr::expressions_of_words(alloc, words) {
        Ok(trees) => {
            let many = trees.len();
            let_go(trees);
            format!(in alloc; "{many} expressions")
        }
        Err(_) => String::from_str(alloc, "none"),
    }
}

/// How many groups of names the index of a loop has, and whether it has a condition.
fn index(alloc: Global, words: &[Word]) -> Result<String, AllocError> {
    match mos_expr::index_of_words(alloc, words) {
        Ok(index) => {
            let (many, has) = (index.groups.len(), index.condition.is_some());
            let_go(index);
            format!(in alloc; "{many} groups, condition {has}")
        }
        Err(_) => String::from_str(alloc, "none"),
    }
}

/// How many names with commas between them the words are.
fn names(alloc: Global, words: &[Word]) -> Result<String, AllocError> {
    match mos_typing::names(alloc, words) {
        Ok(Some(found)) => {
            let many = found.len();
            let_go(found);
            format!(in alloc; "{many} names")
        }
        Ok(None) => String::from_str(alloc, "none"),
        Err(_) => String::from_str(alloc, "no memory"),
    }
}
