//! Lists with commas between their parts.
ghost use Rattle.std.specs.Prelude.{◌≡◌, ◌≤◌, ◌∷◌, [], length, IfOk, MatchOption};
ghost use Rattle.mos_scan.specs.declared.grammar_word.Word.TheVariants as word_kind;
ghost use Rattle.mos_typing.specs.Shapes.{AreNoPair};
ghost use Rattle.mos_form.specs.Lists as spec;

use mos_expr::{with_item, with_name};
use mos_scan::{TokenKind, Word};
use mos_text::{NoMemory, SourceText, let_go};
use mos_tree::{Form, Label};
use mos_typing::behind_comma;
use sqlite_items::Items;
use std::alloc::Global;

/// The texts that the words are.
fn texts(alloc: Global, words: &[Word]) -> Result<Option<Items<SourceText>>, NoMemory>
    ensures { IfOk result (λ all. all ≡ spec.texts_of words.now) }
{
    let mut found = Items::new(alloc);
    let mut rest = words;
    while let [Word::Text(text), after @ ..] = rest {
        match with_name(alloc, found, text) {
            Ok(more) => found = more,
            Err(refused) => return Err(refused),
        }
        if after.is_empty() {
            return Ok(Some(found));
        }
        match behind_comma(after) {
            Some(more) => rest = more,
            None => {
                let_go(found);
                return Ok(None);
            }
        }
    }
    let_go(found);
    Ok(None)
}

/// What stands behind `uses`.
pub(crate) fn uses(alloc: Global, words: &[Word]) -> Result<Form, NoMemory>
    ensures { IfOk result (λ form. form ≡ spec.uses words.now) }
{
    match texts(alloc, words)? {
        Some(found) => Ok(Form::Uses(found)),
        None => Ok(Form::Unknown),
    }
}

/// The text behind `as`, and what stands behind it.
fn as_text(words: &[Word]) -> Option<(&SourceText, &[Word])>
    ensures { MatchOption result (AreNoPair spec.as_text words.now)
        (λ p. words.now ≡ spec.as_text p.0.now p.1.now) }
{
    match words {
        [Word::Key(TokenKind::As), Word::Text(text), behind @ ..] => Some((text, behind)),
        _ => None,
    }
}

/// The labels with one more.
fn with_label(
    alloc: Global,
    found: Items<Label>,
    name: &SourceText,
    shown: Option<SourceText>,
) -> Result<Items<Label>, NoMemory>
    ensures { IfOk result (λ all. all ≡ spec.add found name.now shown) }
{
    match name.copy(alloc) {
        Ok(name) => with_item(found, Label { name, shown }),
        Err(refused) => {
            let_go(found);
            let_go(shown);
            Err(refused)
        }
    }
}

/// The labels with the one of this name, and what stands behind it.
fn next_label<'a>(
    alloc: Global,
    found: Items<Label>,
    name: &SourceText,
    after: &'a [Word],
) -> Result<(Items<Label>, &'a [Word]), NoMemory>
    ensures reads { IfOk result (λ p. spec.read_labels found (word_kind.Name name.now ∷ after.now)
        ≡ spec.behind_label p.0 p.1.now) }
    ensures shorter { IfOk result (λ p. length p.1.now ≤ length after.now) }
{
    match as_text(after) {
        Some((text, behind)) => match text.copy(alloc) {
            Ok(text) => Ok((with_label(alloc, found, name, Some(text))?, behind)),
            Err(refused) => {
                let_go(found);
                Err(refused)
            }
        },
        None => Ok((with_label(alloc, found, name, None)?, after)),
    }
}

/// The labels that the words are.
fn read_labels(alloc: Global, words: &[Word]) -> Result<Option<Items<Label>>, NoMemory>
    ensures { IfOk result (λ all. all ≡ spec.read_labels [] words.now) }
{
    let mut found = Items::new(alloc);
    let mut rest = words;
    while let [Word::Name(name), after @ ..] = rest {
        let (more, behind) = next_label(alloc, found, name, after)?;
        if behind.is_empty() {
            return Ok(Some(more));
        }
        match behind_comma(behind) {
            Some(left) => {
                found = more;
                rest = left;
            }
            None => {
                let_go(more);
                return Ok(None);
            }
        }
    }
    let_go(found);
    Ok(None)
}

/// Labels of `initializations`.
pub(crate) fn labels(alloc: Global, words: &[Word]) -> Result<Form, NoMemory>
    ensures { IfOk result (λ form. form ≡ spec.labels words.now) }
{
    match read_labels(alloc, words)? {
        Some(found) => Ok(Form::Labels(found)),
        None => Ok(Form::Unknown),
    }
}
