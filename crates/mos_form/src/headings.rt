//! Pieces with names, texts and formals behind their first word.
ghost use Rattle.std.specs.Prelude.{◌≡◌, ◌∷◌, Some, None, IfOk};
ghost use Rattle.mos_scan.specs.declared.grammar_word.Word.TheVariants as word_kind;
ghost use Rattle.mos_scan.specs.declared.token.TokenKind.TheVariants as token_kind;
ghost use Rattle.mos_form.specs.Fixed as fixed;
ghost use Rattle.mos_form.specs.Telling as spec;

use crate::cut::{before_result, first, first_name, is_key};
use crate::expressions::refused;
use mos_scan::{TokenKind, Word};
use mos_text::{NoMemory, SourceText, let_go};
use mos_tree::{BaseType, Form, FormalGroup, ModelName, PieceKind};
use mos_typing::{base_type, formals};
use sqlite_items::Items;
use std::alloc::Global;

/// What stands behind `model`.
pub(crate) fn model(alloc: Global, words: &[Word]) -> Result<Form, NoMemory>
    ensures { IfOk result (λ form. form ≡ fixed.model words.now) }
{
    match words {
        [Word::Text(name)] => Ok(Form::Model(ModelName::Quoted(name.copy(alloc)?))),
        [Word::Name(name)] => Ok(Form::Model(ModelName::Named(name.copy(alloc)?))),
        _ => Ok(Form::Unknown),
    }
}

/// What stands behind `options`.
pub(crate) fn options(alloc: Global, words: &[Word]) -> Result<Form, NoMemory>
    ensures { IfOk result (λ form. form ≡ fixed.options words.now) }
{
    match words {
        [Word::Name(name)] => Ok(Form::Options(name.copy(alloc)?)),
        _ => Ok(Form::Unknown),
    }
}

/// The heading of a routine, or what stands behind `forward`.
fn heading(
    forward: bool,
    name: SourceText,
    formals: Items<FormalGroup>,
    typ: Option<BaseType>,
) -> Form
    ensures { result ≡ fixed.heading forward name formals typ }
{
    if forward {
        Form::Forward {
            name,
            formals,
            result: typ,
        }
    } else {
        Form::Routine {
            name,
            formals,
            result: typ,
        }
    }
}

fn heading_kind(forward: bool, typ: &Option<BaseType>) -> PieceKind
    ensures { result ≡ fixed.heading_kind forward typ.now }
{
    if forward {
        PieceKind::Forward
    } else {
        match typ {
            None => PieceKind::Procedure,
            Some(_) => PieceKind::Function,
        }
    }
}

/// The routine with this name, these formals and perhaps a result.
fn routine(
    alloc: Global,
    forward: bool,
    name: &SourceText,
    words: &[Word],
    typ: Option<BaseType>,
) -> Result<Form, NoMemory>
    ensures { IfOk result (spec.TellsFormals
        (λ xs. fixed.heading forward name.now xs typ) words.now) }
{
    let name = name.copy(alloc)?;
    match formals(alloc, words) {
        Ok(formals) => Ok(heading(forward, name, formals, typ)),
        Err(fault) => {
            let kind = heading_kind(forward, &typ);
            let_go(name);
            let_go(typ);
            refused(fault, kind)
        }
    }
}

/// What stands behind `procedure`, which may itself stand behind `forward`.
pub(crate) fn procedure(alloc: Global, forward: bool, words: &[Word]) -> Result<Form, NoMemory>
    ensures { IfOk result (spec.TellsPiece (fixed.lead forward token_kind.Procedure words.now)) }
{
    match first_name(words) {
        Some((name, formals)) => routine(alloc, forward, name, formals, None),
        None => Ok(Form::Unknown),
    }
}

/// What stands behind the name of a function.
fn after_name(
    alloc: Global,
    forward: bool,
    name: &SourceText,
    words: &[Word],
) -> Result<Form, NoMemory>
    ensures { IfOk result
        (spec.TellsPiece (fixed.lead forward token_kind.Function (word_kind.Name name.now
        ∷ words.now))) }
{
    match before_result(words) {
        Some((formals, word)) => {
            let base = base_type(alloc, word)?;
            match base {
                Some(base) => routine(alloc, forward, name, formals, Some(base)),
                None => Ok(Form::Unknown),
            }
        }
        None => Ok(Form::Unknown),
    }
}

/// What stands behind `function`, which may itself stand behind `forward`.
pub(crate) fn function(alloc: Global, forward: bool, words: &[Word]) -> Result<Form, NoMemory>
    ensures { IfOk result (spec.TellsPiece (fixed.lead forward token_kind.Function words.now)) }
{
    match first_name(words) {
        Some((name, rest)) => after_name(alloc, forward, name, rest),
        None => Ok(Form::Unknown),
    }
}

/// What stands behind `forward`.
pub(crate) fn forward(alloc: Global, words: &[Word]) -> Result<Form, NoMemory>
    ensures { IfOk result (spec.TellsPiece (word_kind.Key token_kind.Forward ∷ words.now)) }
{
    match first(words) {
        Some((word, rest)) => {
            if is_key(word, TokenKind::Procedure) {
                procedure(alloc, true, rest)
            } else if is_key(word, TokenKind::Function) {
                function(alloc, true, rest)
            } else {
                Ok(Form::Unknown)
            }
        }
        None => Ok(Form::Unknown),
    }
}
