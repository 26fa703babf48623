//! Where words are cut outside brackets: at commas, and at colons.
ghost use Rattle.std.specs.Prelude.{◌≡◌, ◌+◌, ◌<◌, ◌^◌, None, MatchOption, length};
ghost use Rattle.mos_typing.specs.Cutting as cutting;

use mos_scan::{TokenKind, Word};

/// What words are cut at.
#[derive(Clone, Copy)]
pub(crate) enum Mark {
    Comma,
    Colon,
}

fn is_mark(mark: Mark, word: &Word) -> bool
    ensures { result ≡ cutting.is_mark mark word.now }
{
    match mark {
        Mark::Comma => matches!(word, Word::Key(TokenKind::Comma)),
        Mark::Colon => matches!(word, Word::Key(TokenKind::Colon)),
    }
}

/// How many brackets are open behind the word.
fn depth_behind(word: &Word, depth: usize) -> usize
    requires { depth + 1 < 2 ^ 64 }
    ensures { result ≡ cutting.depth_behind word.now depth }
{
    match word {
        Word::Key(TokenKind::OpenRound | TokenKind::OpenSquare | TokenKind::OpenCurly) => depth + 1,
        Word::Key(TokenKind::CloseRound | TokenKind::CloseSquare | TokenKind::CloseCurly) => {
            depth.saturating_sub(1)
        }
        _ => depth,
    }
}

/// The words before the first such token outside brackets, and those behind it.
pub(crate) fn cut_at(mark: Mark, words: &[Word]) -> Option<(&[Word], &[Word])>
    ensures value { MatchOption result (cutting.halves_at mark 0 words.now ≡ None)
        (λ parts. cutting.IsCut mark words.now parts.0.now parts.1.now) }
    ensures shorter { MatchOption result (Unit {0})
        (λ parts. length parts.1.now < length words.now) }
{
    let mut at: usize = 0;
    let mut depth: usize = 0;
    let mut rest = words;
    while let [word, after @ ..] = rest {
        if depth == 0 && is_mark(mark, word) {
            let (front, _) = words.split_at(at);
            return Some((front, after));
        }
        depth = depth_behind(word, depth);
        at += 1;
        rest = after;
    }
    None
}
