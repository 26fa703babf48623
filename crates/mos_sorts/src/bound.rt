//! Index names: how they are bound behind others, and copied for what stands below them.
ghost use Rattle.std.specs.Prelude.{◌≡◌, IfOk, OnOk};
ghost use Rattle.mos_sorts.specs.Scopes as spec;

use crate::{Bound, Sort};
use mos_text::{NoMemory, SourceText};
use sqlite_items::Items;
use std::alloc::Global;

/// These names, once more.
pub fn copied_names(alloc: Global, names: &[SourceText]) -> Result<Items<SourceText>, NoMemory>
    ensures { IfOk result (λ x. x ≡ names.now) }
{
    let mut all = Items::new(alloc);
    for name in names {
        all.push(name.copy(alloc)?)?;
    }
    Ok(all)
}

/// These index names, once more.
pub fn copied_bound(alloc: Global, bound: &[Bound]) -> Result<Items<Bound>, NoMemory>
    ensures { IfOk result (λ x. x ≡ bound.now) }
{
    let mut all = Items::new(alloc);
    for index in bound {
        let name = index.name.copy(alloc)?;
        all.push(Bound {
            name,
            sort: index.sort,
        })?;
    }
    Ok(all)
}

/// Binds names that take their values from one set, whose members have this type.
pub fn bind(
    alloc: Global,
    bound: &mut Items<Bound>,
    names: &[SourceText],
    sort: Option<Sort>,
) -> Result<(), NoMemory>
    ensures { OnOk result (bound.new ≡ spec.all_bound names.now sort bound.old) }
{
    for name in names {
        let name = name.copy(alloc)?;
        bound.push(Bound { name, sort })?;
    }
    Ok(())
}
