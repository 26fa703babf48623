//! The table of a lock, with its three words and the one slot of the story.
ghost use Rattle.std.specs.Prelude.{◌≡◌};

use crate::rule::{Rule, View};
use crate::story::Story;
use atomic_table::Table;
use std::alloc::Global;
use std::snapshot::Snapshot;

mod ends;
mod turn;

/// The table under a `Keep`. Its calls know of the seat whatever the table's rule says.
#[derive(Drop)]
pub(crate) struct Lock<S: Story> {
    pub(crate) table: Table<Option<S>, View<S::Entry>, Snapshot<S>, Rule<S>, Global>,
    ghost sized: { (table.shared.table_id.words ≡ 3) × (table.shared.table_id.slots ≡ 1) },
}
