//! The steps that take memory: a value that is not placed is let go here, and nowhere else.
ghost use Rattle.std.specs.Prelude.{◌≡◌, [], ◌∷◌, ◌++◌, IfOk};
ghost use Rattle.mos_expr.specs.Operands.{both as both_spec};

use mos_text::{NoMemory, SourceText, let_go};
use sqlite_items::{Boxed, Items};
use std::alloc::Global;

/// A box round one value, and the value that waits beside it.
pub(crate) fn boxed<T: Drop, B: Drop>(
    alloc: Global,
    value: T,
    beside: B,
) -> Result<(Boxed<T>, B), NoMemory>
    ensures value { IfOk result (λ made. made.0 ≡ value) }
    ensures beside { IfOk result (λ made. made.1 ≡ beside) }
{
    match Boxed::new(alloc, value) {
        Ok(made) => Ok((made, beside)),
        Err(_) => {
            let_go(beside);
            Err(NoMemory)
        }
    }
}

/// Both parts, where both are there.
pub(crate) fn both<A: Drop, B: Drop>(a: Option<A>, b: Option<B>) -> Option<(A, B)>
    ensures { result ≡ both_spec a b }
{
    match a {
        None => {
            let_go(b);
            None
        }
        Some(a) => match b {
            None => {
                let_go(a);
                None
            }
            Some(b) => Some((a, b)),
        },
    }
}

/// The items with one more at their end.
pub fn with_item<T: Drop>(items: Items<T>, item: T) -> Result<Items<T>, NoMemory>
    ensures { IfOk result (λ all. all ≡ items ++ item ∷ []) }
{
    let mut items = items;
    match items.push(item) {
        Ok(()) => Ok(items),
        Err(_) => {
            let_go(items);
            Err(NoMemory)
        }
    }
}

/// The names with a copy of one more at their end.
pub fn with_name(
    alloc: Global,
    names: Items<SourceText>,
    name: &SourceText,
) -> Result<Items<SourceText>, NoMemory>
    ensures { IfOk result (λ all. all ≡ names ++ name.now ∷ []) }
{
    match name.copy(alloc) {
        Ok(name) => with_item(names, name),
        Err(refused) => {
            let_go(names);
            Err(refused)
        }
    }
}
