//! What one piece of a source is.
ghost use Rattle.std.specs.Prelude.{◌≡◌};
ghost use Rattle.mos_tree.specs.Forms as spec;

use crate::{
    Assignment, BaseType, Direction, Expr, FormalGroup, Index, Label, ModelName, Reference,
    TypeForm,
};
use mos_text::SourceText;
use sqlite_items::Items;

/// A statement of one piece.
#[derive(Debug, Drop)]
pub enum Simple {
    /// `a:=e`, `a+=e` or `a-=e`
    Assign {
        target: Reference,
        operator: Assignment,
        value: Expr,
    },
    /// `name :: [a, b]`
    Fill {
        name: SourceText,
        values: Items<Expr>,
    },
    /// `name(a, b)` or `name()`
    Call {
        name: SourceText,
        arguments: Items<Expr>,
    },
    Break,
    Next,
}

/// What the grammar sees of a piece, apart from the names and expressions in it.
#[derive(Clone, Copy, Debug, PartialEq, Eq)]
pub enum PieceKind {
    Unknown,
    Model,
    Uses,
    Options,
    EndModel,
    Parameters,
    EndParameters,
    Declarations,
    EndDeclarations,
    Definition,
    Typed,
    RecordOf,
    EndRecord,
    Procedure,
    Function,
    EndProcedure,
    EndFunction,
    Forward,
    Simple,
    Bare,
    If,
    Elif,
    Else,
    EndIf,
    Case,
    Alternative,
    EndCase,
    Forall,
    While,
    Repeat,
    Until,
    Do,
    EndDo,
    Initializations,
    Labels,
    EndInitializations,
}

/// A piece that is one reserved word.
#[derive(Clone, Copy, Debug, PartialEq, Eq)]
pub enum Keyword {
    EndModel,
    Parameters,
    EndParameters,
    Declarations,
    EndDeclarations,
    EndRecord,
    EndProcedure,
    EndFunction,
    Else,
    EndIf,
    EndCase,
    Repeat,
    Do,
    EndDo,
    EndInitializations,
}

/// The word of a piece that is one expression beside its words.
#[derive(Clone, Copy, Debug, PartialEq, Eq)]
pub enum ConditionKeyword {
    /// `if e then`
    If,
    /// `elif e then`
    Elif,
    /// `case e of`
    Case,
    /// `while (e)`
    While,
    /// `until e`
    Until,
}

/// What one piece is, with the expressions in it.
#[derive(Debug, Drop)]
pub enum Form {
    /// No form of the grammar.
    Unknown,
    /// A piece of this kind with an expression that is too high.
    TooHigh(PieceKind),
    Keyword(Keyword),
    /// `model` and a name
    Model(ModelName),
    /// `uses` and names of modules
    Uses(Items<SourceText>),
    /// `options` and a name
    Options(SourceText),
    /// `name = e`
    Definition {
        name: SourceText,
        value: Expr,
    },
    /// `a, b: type`
    Typed {
        names: Items<SourceText>,
        typ: TypeForm,
    },
    /// `name = record`
    RecordOf(SourceText),
    /// The heading of a procedure, or, with the type of its result, of a function.
    Routine {
        name: SourceText,
        formals: Items<FormalGroup>,
        result: Option<BaseType>,
    },
    /// `forward` and a heading
    Forward {
        name: SourceText,
        formals: Items<FormalGroup>,
        result: Option<BaseType>,
    },
    Simple(Simple),
    /// A name alone: a call, or a label of `initializations`.
    Bare(SourceText),
    Guarded(ConditionKeyword, Expr),
    /// `a, b:`
    Alternative(Items<Expr>),
    /// `forall (..)`
    Forall(Index<Expr>),
    /// `initializations from e` or `initializations to e`
    Initializations {
        direction: Direction,
        name: Expr,
    },
    /// `a, b as "c"`: labels of `initializations`, other than a name alone
    Labels(Items<Label>),
}

/// A piece: the line of its first token, from 1, and what it is.
#[derive(Debug, Drop)]
pub struct PieceForm {
    pub line: u32,
    pub form: Form,
}

fn routine_kind(typ: &Option<BaseType>) -> PieceKind
    ensures { result ≡ spec.routine_kind typ.now }
{
    match typ {
        None => PieceKind::Procedure,
        Some(_) => PieceKind::Function,
    }
}

fn keyword_kind(word: Keyword) -> PieceKind
    ensures { result ≡ spec.keyword_kind word }
{
    match word {
        Keyword::EndModel => PieceKind::EndModel,
        Keyword::Parameters => PieceKind::Parameters,
        Keyword::EndParameters => PieceKind::EndParameters,
        Keyword::Declarations => PieceKind::Declarations,
        Keyword::EndDeclarations => PieceKind::EndDeclarations,
        Keyword::EndRecord => PieceKind::EndRecord,
        Keyword::EndProcedure => PieceKind::EndProcedure,
        Keyword::EndFunction => PieceKind::EndFunction,
        Keyword::Else => PieceKind::Else,
        Keyword::EndIf => PieceKind::EndIf,
        Keyword::EndCase => PieceKind::EndCase,
        Keyword::Repeat => PieceKind::Repeat,
        Keyword::Do => PieceKind::Do,
        Keyword::EndDo => PieceKind::EndDo,
        Keyword::EndInitializations => PieceKind::EndInitializations,
    }
}

fn condition_kind(word: ConditionKeyword) -> PieceKind
    ensures { result ≡ spec.condition_kind word }
{
    match word {
        ConditionKeyword::If => PieceKind::If,
        ConditionKeyword::Elif => PieceKind::Elif,
        ConditionKeyword::Case => PieceKind::Case,
        ConditionKeyword::While => PieceKind::While,
        ConditionKeyword::Until => PieceKind::Until,
    }
}

/// What the grammar sees of the piece.
pub fn piece_kind_of(form: &Form) -> PieceKind
    ensures { result ≡ spec.piece_kind_of form.now }
{
    match form {
        Form::Unknown => PieceKind::Unknown,
        Form::TooHigh(kind) => *kind,
        Form::Keyword(word) => keyword_kind(*word),
        Form::Model(_) => PieceKind::Model,
        Form::Uses(_) => PieceKind::Uses,
        Form::Options(_) => PieceKind::Options,
        Form::Definition { .. } => PieceKind::Definition,
        Form::Typed { .. } => PieceKind::Typed,
        Form::RecordOf(_) => PieceKind::RecordOf,
        Form::Routine { result: typ, .. } => routine_kind(typ),
        Form::Forward { .. } => PieceKind::Forward,
        Form::Simple(_) => PieceKind::Simple,
        Form::Bare(_) => PieceKind::Bare,
        Form::Guarded(word, _) => condition_kind(*word),
        Form::Alternative(_) => PieceKind::Alternative,
        Form::Forall(_) => PieceKind::Forall,
        Form::Initializations { .. } => PieceKind::Initializations,
        Form::Labels(_) => PieceKind::Labels,
    }
}
