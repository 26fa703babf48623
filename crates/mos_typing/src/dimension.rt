//! What stands for the indexes of an array.
ghost use Rattle.std.specs.Prelude.{◌≡◌};
ghost use Rattle.mos_tree.specs.declared.declaration.Dimension.TheVariants as dimension;
ghost use Rattle.mos_typing.specs.Joining as joining;
ghost use Rattle.mos_expr.specs.Said.{Says};
ghost use Rattle.mos_typing.specs.Parts as part;

use crate::base::base_form;
use crate::cut::{Mark, cut_at};
use crate::said::{finish, with};
use crate::shape::{is_range, set_member};
use mos_expr::{ExprFault, expression_of_words};
use mos_scan::Word;
use mos_tree::{BaseType, Dimension, Expr};
use sqlite_items::Items;
use std::alloc::Global;

fn set_dimension(base: Result<BaseType, ExprFault>) -> Result<Dimension, ExprFault>
    ensures { result ≡ joining.on_ok dimension.Set base }
{
    match base {
        Ok(base) => Ok(Dimension::Set(base)),
        Err(fault) => Err(fault),
    }
}

fn index_set(set: Result<Expr, ExprFault>) -> Result<Dimension, ExprFault>
    ensures { result ≡ joining.on_ok dimension.IndexSet set }
{
    match set {
        Ok(set) => Ok(Dimension::IndexSet(set)),
        Err(fault) => Err(fault),
    }
}

/// What stands for one index.
fn dimension(alloc: Global, words: &[Word]) -> Result<Dimension, ExprFault>
    ensures { Says (part.IsDimension words.now) result }
{
    if is_range(words) {
        return Ok(Dimension::Range);
    }
    match set_member(words) {
        Some(base) => set_dimension(base_form(alloc, base)),
        None => index_set(expression_of_words(alloc, words)),
    }
}

/// What stands for the indexes of an array, with commas between them.
pub(crate) fn dimensions(alloc: Global, words: &[Word]) -> Result<Items<Dimension>, ExprFault>
    ensures { Says (part.AreDimensions words.now) result }
{
    let mut done = Some(Items::new(alloc));
    let mut rest = words;
    while let Some((first, after)) = cut_at(Mark::Comma, rest) {
        done = with(done, dimension(alloc, first))?;
        rest = after;
    }
    finish(done, dimension(alloc, rest))
}
