//! Pieces: the runs of tokens between cuts.
ghost use Rattle.std.specs.Prelude.{◌≡◌, ◌≤◌, ◌<◌, ◌+◌, ◌-◌, ◌^◌, ◌++◌, ℕ, List, ◌∷◌, length, IfOk, OnOk};
ghost use Rattle.mos_text.specs.Limits.{source_limit};
ghost use Rattle.mos_scan.specs.declared.token.Token.{Token as token_type};
ghost use Rattle.mos_scan.specs.Pieces.{ArePieces};
ghost use Rattle.mos_scan.specs.Reading.{count_of_words};
ghost use Rattle.mos_scan.specs.Cutting as spec;
ghost use Rattle.mos_scan.specs.declared.piece.Piece.{Piece as piece_type};

use crate::context::{Context, context_after, is_among_items, is_separator, no_context};
use crate::token_class::{begins_piece, depth_behind, ends_by};
use crate::{Token, TokenKind};
use mos_text::NoMemory;
use std::alloc::Global;

/// A piece: its tokens, counted from 0, `to` being the first behind it, and the line of its first
/// token.
#[derive(Clone, Copy, Debug, PartialEq, Eq)]
pub struct Piece {
    pub from: u32,
    pub to: u32,
    pub line: u32,
}

/// The piece that is read: where it begins, how many tokens it has so far, its line, its first two
/// tokens and its last one (newlines where there are none), and how many of its own brackets are
/// open.
#[derive(Clone, Copy, Debug)]
pub(crate) struct OpenPiece {
    pub from: u32,
    pub count: u32,
    pub line: u32,
    pub first: TokenKind,
    pub second: TokenKind,
    pub last: TokenKind,
    pub depth: u32,
}

/// No piece, at this place.
#[tactic(auto, unfolding(crate::specs::Cutting::nothing_at))]
fn nothing_at(place: u32) -> OpenPiece
    ensures value { result ≡ spec.nothing_at place }
    ensures place { result.from ≡ place }
    ensures nothing { result.count ≡ 0 }
    ensures flat { result.depth ≡ 0 }
{
    OpenPiece {
        from: place,
        count: 0,
        line: 0,
        first: TokenKind::Newline,
        second: TokenKind::Newline,
        last: TokenKind::Newline,
        depth: 0,
    }
}

/// The piece with one token more.
#[tactic(auto, unfolding(crate::specs::Cutting::piece_with))]
fn piece_with(piece: OpenPiece, token: &Token) -> OpenPiece
    requires depth { piece.depth < 2 ^ 32 - 1 }
    requires count { piece.count < 2 ^ 32 - 1 }
    ensures value { result ≡ spec.piece_with piece token.now }
    ensures place { result.from ≡ piece.from }
    ensures count { result.count ≡ piece.count + 1 }
    ensures near { result.depth ≤ piece.depth + 1 }
{
    OpenPiece {
        from: piece.from,
        count: piece.count + 1,
        line: if piece.count == 0 {
            token.line
        } else {
            piece.line
        },
        first: if piece.count == 0 {
            token.kind
        } else {
            piece.first
        },
        second: if piece.count == 1 {
            token.kind
        } else {
            piece.second
        },
        last: token.kind,
        depth: depth_behind(piece.depth, token.kind),
    }
}

/// Whether the piece ends behind its last token.
#[tactic(auto, unfolding(crate::specs::Cutting::is_ended))]
fn is_ended(context: &Context, piece: &OpenPiece) -> bool
    ensures { result ≡ spec.is_ended context.now piece.now }
{
    ends_by(
        piece.first,
        piece.second,
        piece.last,
        piece.depth,
        context.depth,
        is_among_items(context),
    )
}

/// Whether a piece begins with the token.
#[tactic(auto, unfolding(crate::specs::Cutting::starts))]
fn starts(context: &Context, piece: &OpenPiece, kind: TokenKind) -> bool
    ensures { result ≡ spec.starts context.now piece.now kind }
{
    begins_piece(kind) || is_ended(context, piece)
}

/// Adds the piece, if it has a token.
#[tactic(auto, unfolding(crate::specs::Cutting::closed_piece))]
fn close(pieces: &mut Vec<Piece>, piece: &OpenPiece) -> Result<(), NoMemory>
    requires { piece.now.from + piece.now.count < 2 ^ 32 }
    ensures { OnOk result (pieces.new.items ≡ pieces.old.items ++ spec.closed_piece piece.now) }
{
    if piece.count > 0 {
        pieces.push(Piece {
            from: piece.from,
            to: piece.from + piece.count,
            line: piece.line,
        })?;
    }
    Ok(())
}

/// Takes a token more: what was open is closed before it, or goes on with it.
fn take_token(
    found: &mut Vec<Piece>,
    context: &Context,
    piece: OpenPiece,
    token: &Token,
) -> Result<OpenPiece, NoMemory>
    requires depth { piece.depth < 2 ^ 32 - 1 }
    requires place { piece.from + piece.count < 2 ^ 32 - 1 }
    ensures value { IfOk result (λ next. (ts : List token_type)
        → found.new.items
        ++ spec.pieces_from (spec.context_after context.now token.now.kind) next ts
        ≡ found.old.items ++ spec.pieces_from context.now piece (token.now ∷ ts)) }
    ensures place { IfOk result (λ next. next.from + next.count ≡ piece.from + piece.count + 1) }
    ensures near { IfOk result (λ next. next.depth ≤ piece.depth + 1) }
{
    if is_separator(context, token.kind) {
        close(found, &piece)?;
        return Ok(nothing_at(piece.from + piece.count + 1));
    }
    if starts(context, &piece, token.kind) {
        close(found, &piece)?;
        return Ok(piece_with(nothing_at(piece.from + piece.count), token));
    }
    Ok(piece_with(piece, token))
}

fn all_pieces(alloc: Global, tokens: &[Token]) -> Result<Vec<Piece>, NoMemory>
    requires { length tokens.now ≤ source_limit }
    ensures { IfOk result (λ v. v.items ≡ spec.cut_pieces tokens.now) }
{
    let mut found = Vec::new(alloc);
    let mut context = no_context();
    let mut piece = nothing_at(0);
    for token in tokens {
        piece = take_token(&mut found, &context, piece, token)?;
        context = context_after(context, token.kind);
    }
    close(&mut found, &piece)?;
    Ok(found)
}

/// The pieces that the tokens are cut into: at each semicolon and each newline that ends something;
/// before `elif`, `else`, `until` and each `end-` word; behind each `end-` word, `then`, `else`,
/// `do`, `repeat`, `declarations`, `parameters` and `record`; behind the bracket of a loop and the
/// `of` of a `case`; and behind a colon outside brackets that is part of no heading and no item.
pub fn pieces(alloc: Global, tokens: &[Token]) -> Result<Vec<Piece>, NoMemory>
    requires { length tokens.now ≤ source_limit }
    ensures found { IfOk result (λ v. ArePieces tokens.now v.items) }
    ensures only { (ps : List piece_type) → ArePieces tokens.now ps
        → IfOk result (λ v. v.items ≡ ps) }

    // All pieces together have at most as many words as there are tokens.
    ensures few { (source : List ℕ)
        → IfOk result (λ v. count_of_words source tokens.now v.items ≤ length tokens.now) }
{
    all_pieces(alloc, tokens)
}
