//! What the first words of a piece say of it.
ghost use Rattle.std.specs.Prelude.{◌≡◌};
ghost use Rattle.mos_tree.specs.Forms as forms;
ghost use Rattle.mos_form.specs.Heads as spec;

use mos_scan::{TokenKind, Word};
use mos_tree::{Assignment, ConditionKeyword, Keyword, PieceKind};

/// What the first word says, where it is a token.
#[derive(Clone, Copy)]
pub(crate) enum Head {
    Model,
    Uses,
    Options,
    Procedure,
    Function,
    Forward,
    Guarded(ConditionKeyword),
    Forall,
    Initializations,
    Returned,
    /// The word is the whole piece, or begins none.
    Single,
}

pub(crate) fn head_of(kind: TokenKind) -> Head
    ensures { result ≡ spec.head_of kind }
{
    match kind {
        TokenKind::Model => Head::Model,
        TokenKind::Uses => Head::Uses,
        TokenKind::Options => Head::Options,
        TokenKind::Procedure => Head::Procedure,
        TokenKind::Function => Head::Function,
        TokenKind::Forward => Head::Forward,
        TokenKind::Forall => Head::Forall,
        TokenKind::Initializations => Head::Initializations,
        TokenKind::Returned => Head::Returned,
        _ => condition_or_single(kind),
    }
}

fn condition_or_single(kind: TokenKind) -> Head
    ensures { result ≡ spec.condition_or_single kind }
{
    match kind {
        TokenKind::If => Head::Guarded(ConditionKeyword::If),
        TokenKind::Elif => Head::Guarded(ConditionKeyword::Elif),
        TokenKind::Case => Head::Guarded(ConditionKeyword::Case),
        TokenKind::While => Head::Guarded(ConditionKeyword::While),
        TokenKind::Until => Head::Guarded(ConditionKeyword::Until),
        _ => Head::Single,
    }
}

/// What the word behind a name says.
#[derive(Clone, Copy)]
pub(crate) enum Next {
    Equal,
    Fill,
    OpenRound,
    Dot,
    Assigns(Assignment),
    /// A name of a list, or the type of names.
    List,
    Other,
}

pub(crate) fn next_of(word: &Word) -> Next
    ensures { result ≡ spec.next_of word.now }
{
    match word {
        Word::Key(kind) => next_of_kind(*kind),
        _ => Next::Other,
    }
}

fn next_of_kind(kind: TokenKind) -> Next
    ensures { result ≡ spec.next_of_kind kind }
{
    match kind {
        TokenKind::Equal => Next::Equal,
        TokenKind::Fill => Next::Fill,
        TokenKind::OpenRound => Next::OpenRound,
        TokenKind::Dot => Next::Dot,
        TokenKind::Assign => Next::Assigns(Assignment::Set),
        TokenKind::AddAssign => Next::Assigns(Assignment::Add),
        TokenKind::TakeAssign => Next::Assigns(Assignment::Take),
        TokenKind::Comma | TokenKind::Colon | TokenKind::As => Next::List,
        _ => Next::Other,
    }
}

/// The piece that is this word alone.
pub(crate) fn keyword_of(kind: TokenKind) -> Option<Keyword>
    ensures { result ≡ spec.keyword_of kind }
{
    match kind {
        TokenKind::Parameters => Some(Keyword::Parameters),
        TokenKind::Declarations => Some(Keyword::Declarations),
        TokenKind::Else => Some(Keyword::Else),
        TokenKind::Repeat => Some(Keyword::Repeat),
        TokenKind::Do => Some(Keyword::Do),
        _ => end_of(kind),
    }
}

fn end_of(kind: TokenKind) -> Option<Keyword>
    ensures { result ≡ spec.end_of kind }
{
    match kind {
        TokenKind::EndModel => Some(Keyword::EndModel),
        TokenKind::EndParameters => Some(Keyword::EndParameters),
        TokenKind::EndDeclarations => Some(Keyword::EndDeclarations),
        TokenKind::EndRecord => Some(Keyword::EndRecord),
        TokenKind::EndProcedure => Some(Keyword::EndProcedure),
        TokenKind::EndFunction => Some(Keyword::EndFunction),
        TokenKind::EndIf => Some(Keyword::EndIf),
        TokenKind::EndCase => Some(Keyword::EndCase),
        TokenKind::EndDo => Some(Keyword::EndDo),
        TokenKind::EndInitializations => Some(Keyword::EndInitializations),
        _ => None,
    }
}

/// The kind of a piece with this keyword and a condition.
pub(crate) fn condition_kind(keyword: ConditionKeyword) -> PieceKind
    ensures { result ≡ forms.condition_kind keyword }
{
    match keyword {
        ConditionKeyword::If => PieceKind::If,
        ConditionKeyword::Elif => PieceKind::Elif,
        ConditionKeyword::Case => PieceKind::Case,
        ConditionKeyword::While => PieceKind::While,
        ConditionKeyword::Until => PieceKind::Until,
    }
}
