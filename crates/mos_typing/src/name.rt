//! Names with commas between them.
ghost use Rattle.std.specs.Prelude.{◌≡◌, List, ◌∷◌, IfOk, MatchOption};
ghost use Rattle.mos_scan.specs.declared.token.TokenKind.TheVariants as token_kind;
ghost use Rattle.mos_scan.specs.declared.grammar_word.Word.{Word as WordType};
ghost use Rattle.mos_scan.specs.declared.grammar_word.Word.TheVariants as word_kind;
ghost use Rattle.mos_typing.specs.Reader.{names_of};

use mos_expr::with_name;
use mos_scan::{TokenKind, Word};
use mos_text::{NoMemory, SourceText, let_go};
use sqlite_items::Items;
use std::alloc::Global;

/// What stands behind a comma, where the first word is one.
pub fn behind_comma(words: &[Word]) -> Option<&[Word]>
    ensures { MatchOption result
        ((more : List WordType) → words.now ≡ word_kind.Key token_kind.Comma ∷ more → ⊥)
        (λ more. words.now ≡ word_kind.Key token_kind.Comma ∷ more.now) }
{
    match words {
        [Word::Key(TokenKind::Comma), more @ ..] => Some(more),
        _ => None,
    }
}

/// The names that the words are.
pub(crate) fn names_of_words(
    alloc: Global,
    words: &[Word],
) -> Result<Option<Items<SourceText>>, NoMemory>
    ensures { IfOk result (λ all. all ≡ names_of words.now) }
{
    let mut found = Items::new(alloc);
    let mut rest = words;
    while let [Word::Name(name), after @ ..] = rest {
        match with_name(alloc, found, name) {
            Ok(more) => found = more,
            Err(refused) => return Err(refused),
        }
        if after.is_empty() {
            return Ok(Some(found));
        }
        match behind_comma(after) {
            Some(more) => rest = more,
            None => {
                let_go(found);
                return Ok(None);
            }
        }
    }
    let_go(found);
    Ok(None)
}
