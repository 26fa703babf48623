//! Types.
ghost use Rattle.std.specs.Prelude.{◌≡◌, List, ◌∷◌, ◌++◌};
ghost use Rattle.mos_scan.specs.declared.token.TokenKind.TheVariants as token_kind;
ghost use Rattle.mos_scan.specs.declared.grammar_word.Word.{Word as WordType};
ghost use Rattle.mos_scan.specs.declared.grammar_word.Word.TheVariants as word_kind;
ghost use Rattle.mos_tree.specs.declared.declaration.TypeForm.TheVariants as typ;
ghost use Rattle.mos_expr.specs.Said.{Gives, Says};
ghost use Rattle.mos_typing.specs.Typing as typing;
ghost use Rattle.mos_typing.specs.Joining as joining;
ghost use Rattle.mos_typing.specs.Reader as reads;
ghost use Rattle.mos_typing.specs.Shapes as shapes;
ghost use Rattle.mos_typing.specs.Spellings as spelling;

use crate::base::{base_form, base_of_word};
use crate::dimension::dimensions;
use crate::shape::{array_parts, behind_dynamic};
use mos_expr::ExprFault;
use mos_scan::{TokenKind, Word};
use mos_text::let_go;
use mos_tree::{BaseType, Dimension, TypeForm};
use sqlite_items::Items;
use std::alloc::Global;

/// The type that the words are, if they are no array.
fn plain_type(alloc: Global, words: &[Word]) -> Result<TypeForm, ExprFault>
    ensures { Gives result (reads.plain_type words.now) }
{
    match words {
        [Word::Key(TokenKind::Range)] => Ok(TypeForm::Range),
        [Word::Key(TokenKind::Set), Word::Key(TokenKind::Of), base] => {
            Ok(TypeForm::Set(base_form(alloc, base)?))
        }
        [Word::Key(TokenKind::List), Word::Key(TokenKind::Of), base] => {
            Ok(TypeForm::List(base_form(alloc, base)?))
        }
        [base] => Ok(TypeForm::Base(base_form(alloc, base)?)),
        _ => Err(ExprFault::NoExpr),
    }
}

fn array_over(
    dynamic: bool,
    dimensions: Result<Items<Dimension>, ExprFault>,
    cell: BaseType,
) -> Result<TypeForm, ExprFault>
    ensures { result ≡ joining.on_ok (λ made. typ.Array dynamic made cell) dimensions }
{
    match dimensions {
        Ok(dimensions) => Ok(TypeForm::Array {
            dynamic,
            dimensions,
            cell,
        }),
        Err(fault) => {
            let_go(cell);
            Err(fault)
        }
    }
}

/// An array, from what stands in its brackets and the word of its cells.
fn array_type(
    alloc: Global,
    dynamic: bool,
    indexes: &[Word],
    cell: &Word,
) -> Result<TypeForm, ExprFault>
    ensures { Says (spelling.IsTypeForm (typing.dynamic_words dynamic
        ++ shapes.array_of indexes.now cell.now)) result }
{
    match base_of_word(alloc, cell)? {
        None => Err(ExprFault::NoExpr),
        Some(cell) => array_over(dynamic, dimensions(alloc, indexes), cell),
    }
}

/// What stands behind the word `dynamic`.
fn dynamic_type(alloc: Global, words: &[Word]) -> Result<TypeForm, ExprFault>
    ensures { Says (spelling.IsTypeForm (word_kind.Key token_kind.Dynamic ∷ words.now)) result }
{
    match array_parts(words) {
        Some((indexes, cell)) => array_type(alloc, true, indexes, cell),
        None => Err(ExprFault::NoExpr),
    }
}

/// A type without the word `dynamic`.
fn static_type(alloc: Global, words: &[Word]) -> Result<TypeForm, ExprFault>
    ensures { ((rest : List WordType) → words.now
        ≡ word_kind.Key token_kind.Dynamic ∷ rest → ⊥)
        → Says (spelling.IsTypeForm words.now) result }
{
    match array_parts(words) {
        Some((indexes, cell)) => array_type(alloc, false, indexes, cell),
        None => plain_type(alloc, words),
    }
}

/// The type that the words are.
pub(crate) fn type_of_words(alloc: Global, words: &[Word]) -> Result<TypeForm, ExprFault>
    ensures { Says (spelling.IsTypeForm words.now) result }
{
    match behind_dynamic(words) {
        Some(rest) => dynamic_type(alloc, rest),
        None => static_type(alloc, words),
    }
}
