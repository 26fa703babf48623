//! The calls: the tree of words that spell an expression, expressions with commas, or an index.
ghost use Rattle.std.specs.Prelude.{◌≡◌, ◌≤◌, length};
ghost use Rattle.mos_text.specs.Limits.{source_limit};
ghost use Rattle.mos_scan.specs.Reading.{words_of};
ghost use Rattle.mos_expr.specs.Reader as reads;
ghost use Rattle.mos_expr.specs.Said.{Says, IsExpression, AreExpressions, AreSomeExpressions, IsIndex};

use crate::ExprFault;
use crate::operand::{Operand, Parts, WholeIndex};
use crate::read::{operand_of, parts_of, whole_index_of_words};
use mos_scan::{Token, Word, words};
use mos_text::let_go;
use mos_tree::{Expr, Index};
use sqlite_items::Items;
use std::alloc::Global;

fn tree_of(operand: Option<Operand>) -> Result<Expr, ExprFault>
    ensures { result ≡ reads.outcome operand }
{
    match operand {
        None => Err(ExprFault::NoExpr),
        Some(x) => x.expr.ok_or(ExprFault::Deep),
    }
}

fn trees_of(parts: Option<Parts>) -> Result<Items<Expr>, ExprFault>
    ensures { result ≡ reads.outcome_of_parts parts }
{
    match parts {
        None => Err(ExprFault::NoExpr),
        Some(parts) => parts.items.ok_or(ExprFault::Deep),
    }
}

fn index_of(whole: Option<WholeIndex>) -> Result<Index<Expr>, ExprFault>
    ensures { result ≡ reads.outcome_of_index whole }
{
    match whole {
        None => Err(ExprFault::NoExpr),
        Some(whole) => whole.index.ok_or(ExprFault::Deep),
    }
}

/// The one tree of the words, which are all of one expression.
#[tactic(auto, unfolding(crate::specs::Said::Says))]
pub fn expression_of_words(alloc: Global, words: &[Word]) -> Result<Expr, ExprFault>
    ensures { Says (IsExpression words.now) result }
{
    match operand_of(alloc, words) {
        Ok(operand) => tree_of(operand),
        Err(_) => Err(ExprFault::NoMemory),
    }
}

/// The trees of expressions with commas between them; none where there are no words.
#[tactic(auto, unfolding(crate::specs::Said::Says))]
pub fn expressions_of_words(alloc: Global, words: &[Word]) -> Result<Items<Expr>, ExprFault>
    ensures { Says (AreExpressions words.now) result }
{
    match parts_of(alloc, words) {
        Ok(parts) => trees_of(parts),
        Err(_) => Err(ExprFault::NoMemory),
    }
}

/// The trees of expressions with commas between them, at least one.
pub fn some_expressions_of_words(alloc: Global, words: &[Word]) -> Result<Items<Expr>, ExprFault>
    ensures { Says (AreSomeExpressions words.now) result }
{
    match words {
        [] => Err(ExprFault::NoExpr),
        [_, ..] => expressions_of_words(alloc, words),
    }
}

/// What a loop goes over: names with their sets, perhaps a condition, without the brackets round
/// them.
#[tactic(auto, unfolding(crate::specs::Said::Says))]
pub fn index_of_words(alloc: Global, words: &[Word]) -> Result<Index<Expr>, ExprFault>
    ensures { Says (IsIndex words.now) result }
{
    match whole_index_of_words(alloc, words) {
        Ok(whole) => index_of(whole),
        Err(_) => Err(ExprFault::NoMemory),
    }
}

/// The one tree of tokens of a source, which are all of one expression; the tokens are neighbours
/// in the list that `scan` gives for the source, and newlines among them are passed over.
#[tactic(auto, unfolding(crate::specs::Said::Says))]
pub fn expression(alloc: Global, source: &[u8], tokens: &[Token]) -> Result<Expr, ExprFault>
    requires { length source.now ≤ source_limit }
    ensures { Says (IsExpression (words_of source.now tokens.now)) result }
{
    match words(alloc, source, tokens) {
        Ok(words) => {
            let tree = expression_of_words(alloc, words.as_slice());
            let_go(words);
            tree
        }
        Err(_) => Err(ExprFault::NoMemory),
    }
}
