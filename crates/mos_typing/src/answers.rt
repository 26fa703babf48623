//! The calls: what words are, that they are too high, or that they are none.
ghost use Rattle.std.specs.Prelude.{IfOk};
ghost use Rattle.mos_expr.specs.Said.{Says};
ghost use Rattle.mos_typing.specs.Spellings.{IsTypeForm, AreFormalGroups, FindsNames};

use crate::formal::formals_of_words;
use crate::name::names_of_words;
use crate::types::type_of_words;
use mos_expr::ExprFault;
use mos_scan::Word;
use mos_text::{NoMemory, SourceText};
use mos_tree::{FormalGroup, TypeForm};
use sqlite_items::Items;
use std::alloc::Global;

/// The names that the words are, with commas between them; None where they are none.
pub fn names(alloc: Global, words: &[Word]) -> Result<Option<Items<SourceText>>, NoMemory>
    ensures { IfOk result (FindsNames words.now) }
{
    names_of_words(alloc, words)
}

/// The one type that the words are.
pub fn type_form(alloc: Global, words: &[Word]) -> Result<TypeForm, ExprFault>
    ensures { Says (IsTypeForm words.now) result }
{
    type_of_words(alloc, words)
}

/// The formals that the words are, with their brackets; none where there are no words.
pub fn formals(alloc: Global, words: &[Word]) -> Result<Items<FormalGroup>, ExprFault>
    ensures { Says (AreFormalGroups words.now) result }
{
    formals_of_words(alloc, words)
}
