//! A list with one more at its end.
ghost use Rattle.std.specs.Prelude.{◌≡◌, [], ◌∷◌, ◌++◌, IfOk};
ghost use Rattle.mos_source.specs.Machine as spec;

use mos_text::NoMemory;
use sqlite_items::Items;

/// The items with one more behind them.
pub(crate) fn one_more<T: Drop>(items: Items<T>, item: T) -> Result<Items<T>, NoMemory>
    ensures { IfOk result (λ all. all ≡ items ++ item ∷ []) }
{
    let mut items = items;
    items.push(item)?;
    Ok(items)
}

/// The items with one behind them, if there is one.
pub(crate) fn more<T: Drop>(items: Items<T>, item: Option<T>) -> Result<Items<T>, NoMemory>
    ensures { IfOk result (λ all. all ≡ spec.more items item) }
{
    match item {
        Some(item) => one_more(items, item),
        None => Ok(items),
    }
}
