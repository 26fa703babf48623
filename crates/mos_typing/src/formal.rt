//! Formals.
ghost use Rattle.std.specs.Prelude.{◌≡◌, None, MatchOption, length, ◌<◌};
ghost use Rattle.mos_typing.specs.Typing as typing;
ghost use Rattle.mos_typing.specs.Cutting as cutting;
ghost use Rattle.mos_typing.specs.Joining as joining;
ghost use Rattle.mos_typing.specs.Reader as reads;
ghost use Rattle.mos_expr.specs.Said.{Says};
ghost use Rattle.mos_typing.specs.Parts as part;
ghost use Rattle.mos_typing.specs.Spellings as spelling;

use crate::cut::{Mark, cut_at};
use crate::name::names_of_words;
use crate::said::{finish, with};
use crate::shape::in_brackets;
use crate::types::type_of_words;
use mos_expr::ExprFault;
use mos_scan::Word;
use mos_text::{SourceText, let_go};
use mos_tree::{FormalGroup, TypeForm};
use sqlite_items::Items;
use std::alloc::Global;

fn group_of(
    names: Items<SourceText>,
    typ: Result<TypeForm, ExprFault>,
) -> Result<FormalGroup, ExprFault>
    ensures { result ≡ joining.on_ok (reads.group_of names) typ }
{
    match typ {
        Ok(typ) => Ok(FormalGroup { names, typ }),
        Err(fault) => {
            let_go(names);
            Err(fault)
        }
    }
}

/// Formals of one type: their names, and their type.
fn group(alloc: Global, names: &[Word], typ: &[Word]) -> Result<FormalGroup, ExprFault>
    ensures { Says (part.IsGroup names.now typ.now) result }
{
    match names_of_words(alloc, names)? {
        None => Err(ExprFault::NoExpr),
        Some(found) => group_of(found, type_of_words(alloc, typ)),
    }
}

/// The names of the first group, its type, and what stands behind the comma behind it.
fn first_group(words: &[Word]) -> Option<(&[Word], &[Word], &[Word])>
    ensures value { MatchOption result (cutting.first_group words.now ≡ None)
        (λ parts. cutting.IsFirstGroup words.now parts.0.now parts.1.now parts.2.now) }
    ensures shorter { MatchOption result (Unit {0})
        (λ parts. length parts.2.now < length words.now) }
{
    let Some((names, typed)) = cut_at(Mark::Colon, words) else {
        return None;
    };
    match cut_at(Mark::Comma, typed) {
        Some((typ, after)) => Some((names, typ, after)),
        None => None,
    }
}

/// A group behind which no other stands.
fn last_group(alloc: Global, words: &[Word]) -> Result<FormalGroup, ExprFault>
    ensures { Says (part.IsOnlyGroup words.now) result }
{
    match cut_at(Mark::Colon, words) {
        None => Err(ExprFault::NoExpr),
        Some((names, typ)) => group(alloc, names, typ),
    }
}

/// Formals, with a comma behind each group but the last.
fn groups(alloc: Global, words: &[Word]) -> Result<Items<FormalGroup>, ExprFault>
    ensures { Says (part.AreGroups words.now) result }
{
    let mut done = Some(Items::new(alloc));
    let mut rest = words;
    while let Some((names, typ, after)) = first_group(rest) {
        done = with(done, group(alloc, names, typ))?;
        rest = after;
    }
    finish(done, last_group(alloc, rest))
}

/// What stands in the brackets of formals.
fn bracketed(alloc: Global, inside: &[Word]) -> Result<Items<FormalGroup>, ExprFault>
    ensures { Says (spelling.AreFormalGroups (typing.in_brackets inside.now)) result }
{
    if inside.is_empty() {
        Ok(Items::new(alloc))
    } else {
        groups(alloc, inside)
    }
}

/// The formals that the words are, with their brackets.
pub(crate) fn formals_of_words(
    alloc: Global,
    words: &[Word],
) -> Result<Items<FormalGroup>, ExprFault>
    ensures { Says (spelling.AreFormalGroups words.now) result }
{
    if words.is_empty() {
        return Ok(Items::new(alloc));
    }
    match in_brackets(words) {
        Some(inside) => bracketed(alloc, inside),
        None => Err(ExprFault::NoExpr),
    }
}
