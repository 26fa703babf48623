//! What the kinds of tokens do to brackets, lines and pieces.
ghost use Rattle.std.specs.Prelude.{◌≡◌, ◌≤◌, ◌<◌, ◌+◌, ◌-◌, ◌^◌};
ghost use Rattle.mos_scan.specs.Pieces as spec;

use crate::TokenKind;

/// An operator that is a symbol.
#[tactic(auto, unfolding(crate::specs::Pieces::is_operator))]
fn is_operator(kind: TokenKind) -> bool
    ensures { result ≡ spec.is_operator kind }
{
    match kind {
        TokenKind::Plus
        | TokenKind::Minus
        | TokenKind::Times
        | TokenKind::Equal
        | TokenKind::Less
        | TokenKind::Greater
        | TokenKind::NotEqual
        | TokenKind::AtMost
        | TokenKind::AtLeast
        | TokenKind::DotDot => true,
        _ => false,
    }
}

/// An operator that is a word.
#[tactic(auto, unfolding(crate::specs::Pieces::is_operator_word))]
fn is_operator_word(kind: TokenKind) -> bool
    ensures { result ≡ spec.is_operator_word kind }
{
    match kind {
        TokenKind::And
        | TokenKind::Or
        | TokenKind::Not
        | TokenKind::In
        | TokenKind::Div
        | TokenKind::Mod
        | TokenKind::Union
        | TokenKind::Inter => true,
        _ => false,
    }
}

/// A symbol that wants something behind it.
#[tactic(auto, unfolding(crate::specs::Pieces::joins))]
fn joins(kind: TokenKind) -> bool
    ensures { result ≡ spec.joins kind }
{
    match kind {
        TokenKind::Comma
        | TokenKind::Assign
        | TokenKind::AddAssign
        | TokenKind::TakeAssign
        | TokenKind::Fill
        | TokenKind::Bar
        | TokenKind::Dot
        | TokenKind::OpenRound
        | TokenKind::OpenSquare
        | TokenKind::OpenCurly => true,
        _ => false,
    }
}

/// Whether a newline directly behind this token ends nothing.
fn goes_on(kind: TokenKind) -> bool
    ensures { result ≡ spec.goes_on kind }
{
    is_operator(kind) || is_operator_word(kind) || joins(kind)
}

/// Whether a token at this depth, directly behind this last one, belongs to no piece.
#[tactic(auto, unfolding(crate::specs::Pieces::separates_at))]
pub(crate) fn separates_at(depth: u32, last: TokenKind, kind: TokenKind) -> bool
    ensures { result ≡ spec.separates_at depth last kind }
{
    match kind {
        TokenKind::Semicolon => true,
        TokenKind::Newline => depth == 0 && !goes_on(last),
        _ => false,
    }
}

/// How many brackets are open behind one token more.
pub(crate) fn depth_behind(depth: u32, kind: TokenKind) -> u32
    requires { depth < 2 ^ 32 - 1 }
    ensures value { result ≡ spec.depth_behind depth kind }
    ensures near { result ≤ depth + 1 }
{
    match kind {
        TokenKind::OpenRound | TokenKind::OpenSquare | TokenKind::OpenCurly => depth + 1,
        TokenKind::CloseRound | TokenKind::CloseSquare | TokenKind::CloseCurly => {
            depth.saturating_sub(1)
        }
        _ => depth,
    }
}

/// A word that ends a block.
fn is_end_word(kind: TokenKind) -> bool
    ensures { result ≡ spec.is_end_word kind }
{
    match kind {
        TokenKind::EndCase
        | TokenKind::EndDeclarations
        | TokenKind::EndDo
        | TokenKind::EndFunction
        | TokenKind::EndIf
        | TokenKind::EndInitializations
        | TokenKind::EndModel
        | TokenKind::EndParameters
        | TokenKind::EndProcedure
        | TokenKind::EndRecord => true,
        _ => false,
    }
}

/// Whether a piece ends before this token.
#[tactic(auto, unfolding(crate::specs::Pieces::begins_piece))]
pub(crate) fn begins_piece(kind: TokenKind) -> bool
    ensures { result ≡ spec.begins_piece kind }
{
    match kind {
        TokenKind::Elif | TokenKind::Else | TokenKind::Until => true,
        _ => is_end_word(kind),
    }
}

/// Whether a piece ends behind this token wherever it stands.
#[tactic(auto, unfolding(crate::specs::Pieces::ends_always))]
fn ends_always(kind: TokenKind) -> bool
    ensures { result ≡ spec.ends_always kind }
{
    match kind {
        TokenKind::Then
        | TokenKind::Else
        | TokenKind::Do
        | TokenKind::Repeat
        | TokenKind::Declarations
        | TokenKind::Parameters
        | TokenKind::Record => true,
        _ => is_end_word(kind),
    }
}

/// `forall` or `while`.
#[tactic(auto, unfolding(crate::specs::Pieces::is_loop))]
fn is_loop(kind: TokenKind) -> bool
    ensures { result ≡ spec.is_loop kind }
{
    matches!(kind, TokenKind::Forall | TokenKind::While)
}

/// `procedure`, `function` or `forward`.
#[tactic(auto, unfolding(crate::specs::Pieces::is_heading))]
fn is_heading(kind: TokenKind) -> bool
    ensures { result ≡ spec.is_heading kind }
{
    matches!(
        kind,
        TokenKind::Procedure | TokenKind::Function | TokenKind::Forward
    )
}

/// Whether the bracket of a loop is closed again.
fn closes_loop(first: TokenKind, second: TokenKind, inner: u32) -> bool
    ensures { result ≡ spec.closes_loop first second inner }
{
    match second {
        TokenKind::OpenRound => is_loop(first) && inner == 0,
        _ => false,
    }
}

/// Whether `of` stands behind a `case`.
fn closes_case(first: TokenKind, last: TokenKind) -> bool
    ensures { result ≡ spec.closes_case first last }
{
    matches!((first, last), (TokenKind::Case, TokenKind::Of))
}

/// Whether a colon ends a piece that is no heading and no item.
fn closes_label(first: TokenKind, last: TokenKind, outer: u32, items: bool) -> bool
    ensures { result ≡ spec.closes_label first last outer items }
{
    match last {
        TokenKind::Colon => outer == 0 && !is_heading(first) && !items,
        _ => false,
    }
}

/// Whether a piece ends by its first two tokens and its last one, by the brackets that are open in
/// it and in all, and by whether it stands among items.
#[tactic(auto, unfolding(crate::specs::Pieces::ends_by))]
pub(crate) fn ends_by(
    first: TokenKind,
    second: TokenKind,
    last: TokenKind,
    inner: u32,
    outer: u32,
    items: bool,
) -> bool
    ensures { result ≡ spec.ends_by first second last inner outer items }
{
    ends_always(last)
        || closes_loop(first, second, inner)
        || closes_case(first, last)
        || closes_label(first, last, outer, items)
}
