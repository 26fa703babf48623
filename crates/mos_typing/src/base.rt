//! Types of one word.
ghost use Rattle.std.specs.Prelude.{◌≡◌, IfOk};
ghost use Rattle.mos_expr.specs.Said.{Gives};
ghost use Rattle.mos_typing.specs.Spellings.{FindsBase};
ghost use Rattle.mos_typing.specs.Joining.{or_nothing};
ghost use Rattle.mos_typing.specs.Reader.{base_of};

use mos_expr::ExprFault;
use mos_scan::{TokenKind, Word};
use mos_text::NoMemory;
use mos_tree::BaseType;
use std::alloc::Global;

/// The type that the word is.
pub(crate) fn base_of_word(alloc: Global, word: &Word) -> Result<Option<BaseType>, NoMemory>
    ensures { IfOk result (λ found. found ≡ base_of word.now) }
{
    match word {
        Word::Key(TokenKind::Integer) => Ok(Some(BaseType::Integer)),
        Word::Key(TokenKind::Boolean) => Ok(Some(BaseType::Boolean)),
        Word::Key(TokenKind::StringWord) => Ok(Some(BaseType::Text)),
        Word::Name(name) => Ok(Some(BaseType::Named(name.copy(alloc)?))),
        _ => Ok(None),
    }
}

/// The type that the word is; `NoExpr` where it is none.
pub(crate) fn base_form(alloc: Global, word: &Word) -> Result<BaseType, ExprFault>
    ensures { Gives result (or_nothing (base_of word.now)) }
{
    base_of_word(alloc, word)?.ok_or(ExprFault::NoExpr)
}

/// The type that the word is, if it is one that can be a member, a cell, a field or a result.
pub fn base_type(alloc: Global, word: &Word) -> Result<Option<BaseType>, NoMemory>
    ensures { IfOk result (FindsBase word.now) }
{
    base_of_word(alloc, word)
}
