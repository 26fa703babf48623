//! Where the words of a piece part.
ghost use Rattle.std.specs.Prelude.{◌≡◌, ◌++◌, ◌∷◌, [], List, ℕ, MatchOption, true, false};
ghost use Rattle.std.specs.List.{prefix_len};
ghost use Rattle.mos_scan.specs.declared.grammar_word.Word.TheVariants as word_kind;
ghost use Rattle.mos_typing.specs.PhraseWords as plain;
ghost use Rattle.mos_typing.specs.Shapes.{AreNo, AreNoPair};
ghost use Rattle.mos_form.specs.Cuts as spec;

use mos_scan::{TokenKind, Word};
use mos_text::SourceText;
use mos_tree::{Assignment, Direction};

/// The first word, and the others.
pub(crate) fn first(words: &[Word]) -> Option<(&Word, &[Word])>
    ensures { MatchOption result (words.now ≡ []) (λ p. words.now ≡ p.0.now ∷ p.1.now) }
{
    words.split_first()
}

/// The last word, and the others.
pub(crate) fn last(words: &[Word]) -> Option<(&Word, &[Word])>
    ensures { MatchOption result (words.now ≡ []) (λ p. words.now ≡ p.1.now ++ p.0.now ∷ []) }
{
    words.split_last()
}

/// Whether the word is this token.
pub(crate) fn is_key(word: &Word, kind: TokenKind) -> bool
    ensures yes { result ≡ true → word.now ≡ word_kind.Key kind }
    ensures no { result ≡ false → word.now ≡ word_kind.Key kind → ⊥ }
{
    match word {
        Word::Key(found) => *found == kind,
        _ => false,
    }
}

/// The words before the last one, where that is this token.
pub(crate) fn before_last(words: &[Word], kind: TokenKind) -> Option<&[Word]>
    ensures { MatchOption result (AreNo (spec.before kind) words.now)
        (λ inside. words.now ≡ spec.before kind inside.now) }
{
    match last(words) {
        Some((last, inside)) if is_key(last, kind) => Some(inside),
        _ => None,
    }
}

/// The words between these two tokens, where they are the first and the last.
pub(crate) fn enclosed(words: &[Word], opens: TokenKind, closes: TokenKind) -> Option<&[Word]>
    ensures { MatchOption result (AreNo (spec.within opens closes) words.now)
        (λ inside. words.now ≡ spec.within opens closes inside.now) }
{
    match first(words) {
        Some((first, rest)) if is_key(first, opens) => before_last(rest, closes),
        _ => None,
    }
}

/// The name that the word is.
fn name_of(word: &Word) -> Option<&SourceText>
    ensures { MatchOption result ((name : List ℕ) → word.now ≡ word_kind.Name name → ⊥)
        (λ name. word.now ≡ word_kind.Name name.now) }
{
    match word {
        Word::Name(name) => Some(name),
        _ => None,
    }
}

/// The first word, where it is a name, and the others.
pub(crate) fn first_name(words: &[Word]) -> Option<(&SourceText, &[Word])>
    ensures { MatchOption result (AreNoPair spec.behind_name words.now)
        (λ p. words.now ≡ spec.behind_name p.0.now p.1.now) }
{
    match first(words) {
        Some((Word::Name(name), rest)) => Some((name, rest)),
        _ => None,
    }
}

/// The first word, where it is a token, and the others.
pub(crate) fn first_key(words: &[Word]) -> Option<(TokenKind, &[Word])>
    ensures { MatchOption result (AreNoPair spec.behind_key words.now)
        (λ p. words.now ≡ spec.behind_key p.0 p.1.now) }
{
    match first(words) {
        Some((Word::Key(kind), rest)) => Some((*kind, rest)),
        _ => None,
    }
}

/// A part that ends in a field: the words between its brackets, and the field.
pub(crate) fn before_field(words: &[Word]) -> Option<(&[Word], &SourceText)>
    ensures { MatchOption result (AreNoPair spec.with_field words.now)
        (λ p. words.now ≡ spec.with_field p.0.now p.1.now) }
{
    let (word, before) = last(words)?;
    let field = name_of(word)?;
    match before_last(before, TokenKind::Dot) {
        Some(target) => match before_last(target, TokenKind::CloseRound) {
            Some(inside) => Some((inside, field)),
            None => None,
        },
        None => None,
    }
}

/// The heading of a function: the words of its formals, and that of its result.
pub(crate) fn before_result(words: &[Word]) -> Option<(&[Word], &Word)>
    ensures { MatchOption result (AreNoPair spec.with_result words.now)
        (λ p. words.now ≡ spec.with_result p.0.now p.1.now) }
{
    match last(words) {
        Some((typ, before)) => match before_last(before, TokenKind::Colon) {
            Some(inside) => Some((inside, typ)),
            None => None,
        },
        None => None,
    }
}

/// Whether the word may stand in an expression.
fn is_plain(word: &Word) -> bool
    ensures { result ≡ plain.is_plain word.now }
{
    match word {
        Word::Key(kind) => !parts_pieces(*kind),
        _ => true,
    }
}

fn parts_pieces(kind: TokenKind) -> bool
    ensures { result ≡ plain.parts_pieces kind }
{
    match kind {
        TokenKind::Assign | TokenKind::AddAssign | TokenKind::TakeAssign | TokenKind::Fill => true,
        TokenKind::Colon | TokenKind::Then | TokenKind::Of | TokenKind::Record => true,
        TokenKind::Range | TokenKind::As | TokenKind::From | TokenKind::To => true,
        _ => false,
    }
}

/// How many words may stand in an expression before the first that may not.
fn plain_words(words: &[Word]) -> usize
    ensures { result ≡ prefix_len plain.is_plain words.now }
{
    words.iter().take_while(|word| is_plain(word)).count()
}

/// The first word that may stand in no expression, with the words before and behind it.
pub(crate) fn parted(words: &[Word]) -> Option<(&[Word], &Word, &[Word])>
    ensures { MatchOption result (plain.ArePlain words.now)
        (λ p. spec.ArePartedAt words.now p.0.now p.1.now p.2.now) }
{
    let (before, rest) = words.split_at(plain_words(words).min(words.len()));
    match first(rest) {
        Some((word, behind)) => Some((before, word, behind)),
        None => None,
    }
}

/// Whether the words are the one word `record`.
pub(crate) fn is_record(words: &[Word]) -> bool
    ensures { result ≡ spec.is_record words.now }
{
    matches!(words, [Word::Key(TokenKind::Record)])
}

/// What the word assigns, if it does.
pub(crate) fn operator_of(word: &Word) -> Option<Assignment>
    ensures { result ≡ spec.operator_of word.now }
{
    match word {
        Word::Key(TokenKind::Assign) => Some(Assignment::Set),
        Word::Key(TokenKind::AddAssign) => Some(Assignment::Add),
        Word::Key(TokenKind::TakeAssign) => Some(Assignment::Take),
        _ => None,
    }
}

/// The way that the word says.
pub(crate) fn direction_of(word: &Word) -> Option<Direction>
    ensures { result ≡ spec.direction_of word.now }
{
    match word {
        Word::Key(TokenKind::From) => Some(Direction::From),
        Word::Key(TokenKind::To) => Some(Direction::To),
        _ => None,
    }
}
