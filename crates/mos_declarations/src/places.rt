//! Where a name is declared.
ghost use Rattle.std.specs.Prelude.{◌≡◌};
ghost use Rattle.mos_declarations.specs.Items as items;

use mos_sorts::{Scope, Where};

/// Where a name is declared: in the routine, or else in the model.
pub fn here(scope: &Scope) -> Where
    ensures { result ≡ items.here scope.now }
{
    if scope.inside {
        Where::Own
    } else {
        Where::Model
    }
}
