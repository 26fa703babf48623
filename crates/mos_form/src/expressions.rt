//! Pieces that are known up to their expressions.
ghost use Rattle.std.specs.Prelude.{◌≡◌, IfOk, Some};
ghost use Rattle.mos_form.specs.Telling as spec;
ghost use Rattle.mos_tree.specs.declared.form.Form.TheVariants as form_kind;

use crate::head::condition_kind;
use mos_expr::{
    ExprFault, expression_of_words, expressions_of_words, index_of_words, some_expressions_of_words,
};
use mos_scan::Word;
use mos_text::{NoMemory, SourceText, let_go};
use mos_tree::{Assignment, ConditionKeyword, Direction, Expr, Form, PieceKind, Reference, Simple};
use mos_typing::type_form;
use sqlite_items::Items;
use std::alloc::Global;

/// What a piece of this kind is where its expressions have no trees.
pub(crate) fn refused(fault: ExprFault, kind: PieceKind) -> Result<Form, NoMemory>
    ensures { IfOk result (λ form. Some form ≡ spec.refusal kind fault) }
{
    match fault {
        ExprFault::NoExpr => Ok(Form::Unknown),
        ExprFault::Deep => Ok(Form::TooHigh(kind)),
        ExprFault::NoMemory => Err(NoMemory),
    }
}

/// The piece with this keyword and this condition.
pub(crate) fn guarded(
    alloc: Global,
    keyword: ConditionKeyword,
    words: &[Word],
) -> Result<Form, NoMemory>
    ensures { IfOk result (spec.TellsOne (λ x. form_kind.Guarded keyword x) words.now) }
{
    match expression_of_words(alloc, words) {
        Ok(condition) => Ok(Form::Guarded(keyword, condition)),
        Err(fault) => refused(fault, condition_kind(keyword)),
    }
}

/// The constant with this value.
pub(crate) fn definition(alloc: Global, name: &SourceText, words: &[Word]) -> Result<Form, NoMemory>
    ensures { IfOk result (spec.TellsOne (λ x. form_kind.Definition name.now x) words.now) }
{
    let name = name.copy(alloc)?;
    match expression_of_words(alloc, words) {
        Ok(value) => Ok(Form::Definition { name, value }),
        Err(fault) => {
            let_go(name);
            refused(fault, PieceKind::Definition)
        }
    }
}

/// The heading of `initializations` with this name of a source or sink.
pub(crate) fn initializations(
    alloc: Global,
    direction: Direction,
    words: &[Word],
) -> Result<Form, NoMemory>
    ensures { IfOk result (spec.TellsOne (λ x. form_kind.Initializations direction x) words.now) }
{
    match expression_of_words(alloc, words) {
        Ok(name) => Ok(Form::Initializations { direction, name }),
        Err(fault) => refused(fault, PieceKind::Initializations),
    }
}

/// The assignment of this value.
pub(crate) fn assignment(
    alloc: Global,
    target: Reference,
    operator: Assignment,
    words: &[Word],
) -> Result<Form, NoMemory>
    ensures { IfOk result (spec.TellsOne (spec.assign_form target operator) words.now) }
{
    match expression_of_words(alloc, words) {
        Ok(value) => Ok(assigned(target, operator, value)),
        Err(fault) => {
            let_go(target);
            refused(fault, PieceKind::Simple)
        }
    }
}

pub(crate) fn assigned(target: Reference, operator: Assignment, value: Expr) -> Form
    ensures { result ≡ spec.assign_form target operator value }
{
    Form::Simple(Simple::Assign {
        target,
        operator,
        value,
    })
}

/// The call with these arguments.
pub(crate) fn call(alloc: Global, name: &SourceText, words: &[Word]) -> Result<Form, NoMemory>
    ensures { IfOk result (spec.TellsAll (spec.call_form name.now) words.now) }
{
    let name = name.copy(alloc)?;
    match expressions_of_words(alloc, words) {
        Ok(arguments) => Ok(Form::Simple(Simple::Call { name, arguments })),
        Err(fault) => {
            let_go(name);
            refused(fault, PieceKind::Simple)
        }
    }
}

/// The cells that are filled with these values.
pub(crate) fn filling(alloc: Global, name: &SourceText, words: &[Word]) -> Result<Form, NoMemory>
    ensures { IfOk result (spec.TellsAll (spec.fill_form name.now) words.now) }
{
    let name = name.copy(alloc)?;
    match expressions_of_words(alloc, words) {
        Ok(values) => Ok(Form::Simple(Simple::Fill { name, values })),
        Err(fault) => {
            let_go(name);
            refused(fault, PieceKind::Simple)
        }
    }
}

/// The alternative with these labels.
pub(crate) fn alternative(alloc: Global, words: &[Word]) -> Result<Form, NoMemory>
    ensures { IfOk result (spec.TellsSome (λ xs. form_kind.Alternative xs) words.now) }
{
    match some_expressions_of_words(alloc, words) {
        Ok(labels) => Ok(Form::Alternative(labels)),
        Err(fault) => refused(fault, PieceKind::Alternative),
    }
}

/// The loop over this index.
pub(crate) fn forall(alloc: Global, words: &[Word]) -> Result<Form, NoMemory>
    ensures { IfOk result (spec.TellsIndex (λ x. form_kind.Forall x) words.now) }
{
    match index_of_words(alloc, words) {
        Ok(index) => Ok(Form::Forall(index)),
        Err(fault) => refused(fault, PieceKind::Forall),
    }
}

/// The names with this type.
pub(crate) fn typed_as(
    alloc: Global,
    names: Items<SourceText>,
    words: &[Word],
) -> Result<Form, NoMemory>
    ensures { IfOk result (spec.TellsType (λ x. form_kind.Typed names x) words.now) }
{
    match type_form(alloc, words) {
        Ok(typ) => Ok(Form::Typed { names, typ }),
        Err(fault) => {
            let_go(names);
            refused(fault, PieceKind::Typed)
        }
    }
}
