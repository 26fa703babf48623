//! Which pieces may stand where.
ghost use Rattle.std.specs.Prelude.{◌≡◌};
ghost use Rattle.mos_source.specs.Places as spec;

use mos_tree::PieceKind;

/// Where a piece stands: behind what is read, in the innermost block that is open.
#[derive(Clone, Copy)]
pub(crate) enum Place {
    /// Before everything.
    Start,
    /// Behind `model` and its heads.
    Heads,
    /// Behind the first piece of a model that is no head.
    Tops,
    Parameters,
    Declarations,
    Record,
    Procedure,
    Function,
    /// Under `if` or `elif`.
    IfArm,
    /// Under the `else` of an `if`.
    IfElse,
    /// Between the alternatives of a `case`.
    Case,
    /// Behind the labels of an alternative.
    CaseArm,
    /// Under the `else` of a `case`.
    CaseElse,
    /// Behind a `forall` or `while`.
    LoopBody,
    Repeat,
    /// Under `do`.
    Do,
    /// Under `initializations`.
    Initializations,
    /// Behind `end-model`.
    End,
}

/// What a piece does that may stand at a place.
#[derive(Clone, Copy)]
pub(crate) enum Role {
    /// It opens a block.
    Opens,
    /// It is a row of the block that is open, or parts it.
    Continues,
    /// It is a whole statement or a whole `forward`.
    StandsAlone,
    /// It closes the block.
    Closes,
}

/// Whether a statement may begin at the place.
pub(crate) fn takes_statements(place: Place) -> bool
    ensures { result ≡ spec.takes_statements place }
{
    match place {
        Place::Start | Place::Parameters | Place::Declarations | Place::Record => false,
        Place::Case | Place::Initializations | Place::End => false,
        _ => true,
    }
}

/// What the first piece of a statement does.
fn begins(kind: PieceKind) -> Option<Role>
    ensures { result ≡ spec.begins kind }
{
    match kind {
        PieceKind::Simple | PieceKind::Bare => Some(Role::StandsAlone),
        PieceKind::If | PieceKind::Case | PieceKind::Forall | PieceKind::While => Some(Role::Opens),
        PieceKind::Repeat | PieceKind::Do | PieceKind::Initializations => Some(Role::Opens),
        _ => None,
    }
}

/// What the piece does at the top of a model.
fn top_role(kind: PieceKind) -> Option<Role>
    ensures { result ≡ spec.top_role kind }
{
    match kind {
        PieceKind::Parameters
        | PieceKind::Declarations
        | PieceKind::Procedure
        | PieceKind::Function => { Some(Role::Opens) }
        PieceKind::Forward => Some(Role::StandsAlone),
        PieceKind::EndModel => Some(Role::Closes),
        _ => None,
    }
}

/// What the piece does at the place, statements aside.
fn own_role(place: Place, kind: PieceKind) -> Option<Role>
    ensures { result ≡ spec.own_role place kind }
{
    match (place, kind) {
        (Place::Start, PieceKind::Model) => Some(Role::Opens),
        (Place::Heads, PieceKind::Uses | PieceKind::Options) => Some(Role::Continues),
        (Place::Heads | Place::Tops, other) => top_role(other),
        (Place::Parameters, PieceKind::Definition) => Some(Role::Continues),
        (Place::Parameters, PieceKind::EndParameters) => Some(Role::Closes),
        (Place::Declarations, PieceKind::Definition | PieceKind::Typed) => Some(Role::Continues),
        (Place::Declarations, PieceKind::RecordOf) => Some(Role::Opens),
        (Place::Declarations, PieceKind::EndDeclarations) => Some(Role::Closes),
        (Place::Record, PieceKind::Typed) => Some(Role::Continues),
        (Place::Record, PieceKind::EndRecord) => Some(Role::Closes),
        (Place::Procedure | Place::Function, PieceKind::Declarations) => Some(Role::Opens),
        (Place::Procedure, PieceKind::EndProcedure) => Some(Role::Closes),
        (Place::Function, PieceKind::EndFunction) => Some(Role::Closes),
        (Place::IfArm, PieceKind::Elif | PieceKind::Else) => Some(Role::Continues),
        (Place::IfArm | Place::IfElse, PieceKind::EndIf) => Some(Role::Closes),
        (Place::Case, PieceKind::Alternative | PieceKind::Else) => Some(Role::Continues),
        (Place::Case | Place::CaseElse, PieceKind::EndCase) => Some(Role::Closes),
        (Place::Repeat, PieceKind::Until) => Some(Role::Closes),
        (Place::Do, PieceKind::EndDo) => Some(Role::Closes),
        (Place::Initializations, PieceKind::Bare | PieceKind::Labels) => Some(Role::Continues),
        (Place::Initializations, PieceKind::EndInitializations) => Some(Role::Closes),
        _ => None,
    }
}

/// What the piece does at the place, if it may stand there.
#[tactic(auto, unfolding(crate::specs::Places::role_at))]
pub(crate) fn role_at(place: Place, kind: PieceKind) -> Option<Role>
    ensures { result ≡ spec.role_at place kind }
{
    if takes_statements(place) {
        match begins(kind) {
            Some(role) => Some(role),
            None => own_role(place, kind),
        }
    } else {
        own_role(place, kind)
    }
}
