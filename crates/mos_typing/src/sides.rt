//! Two parts of a piece, side by side: where one of them is nothing the whole is nothing, else where
//! one is too high the whole is.
ghost use Rattle.std.specs.Prelude.{◌≡◌};
ghost use Rattle.mos_expr.specs.Said.{Says};
ghost use Rattle.mos_typing.specs.Joining as joining;
ghost use Rattle.mos_typing.specs.Spellings.{AreIndexesAndValue};

use mos_expr::{ExprFault, expression_of_words, some_expressions_of_words};
use mos_scan::Word;
use mos_text::let_go;
use mos_tree::Expr;
use sqlite_items::Items;
use std::alloc::Global;

/// What is said of two parts of which the first is too high.
fn beside_too_high<A, B: Drop>(rest: Result<B, ExprFault>) -> Result<(A, B), ExprFault>
    ensures { result ≡ joining.beside_too_high rest }
{
    match rest {
        Ok(rest) => {
            let_go(rest);
            Err(ExprFault::Deep)
        }
        Err(fault) => Err(fault),
    }
}

/// What is said of two parts of which the first is this.
fn beside<A: Drop, B>(first: A, rest: Result<B, ExprFault>) -> Result<(A, B), ExprFault>
    ensures { result ≡ joining.on_ok (joining.pair first) rest }
{
    match rest {
        Ok(rest) => Ok((first, rest)),
        Err(fault) => {
            let_go(first);
            Err(fault)
        }
    }
}

/// What is said of two parts.
fn both<A: Drop, B: Drop>(
    first: Result<A, ExprFault>,
    rest: Result<B, ExprFault>,
) -> Result<(A, B), ExprFault>
    ensures { result ≡ joining.both joining.pair first rest }
{
    match first {
        Ok(first) => beside(first, rest),
        Err(ExprFault::Deep) => beside_too_high(rest),
        Err(fault) => {
            let_go(rest);
            Err(fault)
        }
    }
}

/// Indexes, at least one, and the value beside them.
pub fn indexes_and_value(
    alloc: Global,
    indexes: &[Word],
    value: &[Word],
) -> Result<(Items<Expr>, Expr), ExprFault>
    ensures { Says (AreIndexesAndValue indexes.now value.now) result }
{
    let indexes = some_expressions_of_words(alloc, indexes);
    both(indexes, expression_of_words(alloc, value))
}
