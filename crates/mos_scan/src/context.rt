//! What is known of the tokens behind a place.
ghost use Rattle.std.specs.Prelude.{◌≡◌, ◌≤◌, ◌<◌, ◌+◌, ◌-◌, ◌^◌};
ghost use Rattle.mos_scan.specs.Cutting as spec;

use crate::TokenKind;
use crate::token_class::{depth_behind, separates_at};

/// What is known behind some tokens: how many brackets are open, the last token, and which blocks
/// of items are open.
#[derive(Clone, Copy, Debug)]
pub(crate) struct Context {
    pub depth: u32,
    /// That of a newline where there is no token.
    pub last: TokenKind,
    pub declarations: bool,
    pub parameters: bool,
    pub initializations: bool,
}

/// What is known before all tokens.
pub(crate) fn no_context() -> Context
    ensures { result ≡ spec.no_context }
{
    Context {
        depth: 0,
        last: TokenKind::Newline,
        declarations: false,
        parameters: false,
        initializations: false,
    }
}

/// What is known behind one token more.
#[tactic(auto, unfolding(crate::specs::Cutting::context_after))]
pub(crate) fn context_after(context: Context, kind: TokenKind) -> Context
    requires { context.depth < 2 ^ 32 - 1 }
    ensures value { result ≡ spec.context_after context kind }
    ensures near { result.depth ≤ context.depth + 1 }
{
    let mut next = context;
    next.depth = depth_behind(context.depth, kind);
    next.last = kind;
    match kind {
        TokenKind::Declarations => next.declarations = true,
        TokenKind::EndDeclarations => next.declarations = false,
        TokenKind::Parameters => next.parameters = true,
        TokenKind::EndParameters => next.parameters = false,
        TokenKind::Initializations => next.initializations = true,
        TokenKind::EndInitializations => next.initializations = false,
        _ => {}
    }
    next
}

/// Whether a colon behind these tokens belongs to an item.
pub(crate) fn is_among_items(context: &Context) -> bool
    ensures { result ≡ spec.is_among_items context.now }
{
    context.declarations || context.parameters || context.initializations
}

/// Whether the token belongs to no piece.
#[tactic(auto, unfolding(crate::specs::Cutting::is_separator))]
pub(crate) fn is_separator(context: &Context, kind: TokenKind) -> bool
    ensures { result ≡ spec.is_separator context.now kind }
{
    separates_at(context.depth, context.last, kind)
}
