//! The turn, which one pass at a time has.
ghost use Rattle.std.specs.Prelude.{◌≡◌, ◌<◌};

use crate::told::Told;
use crate::view::{Law, View};
use atomic_table::Table;
use std::alloc::Global;
use std::snapshot::Snapshot;

/// A value that one caller at a time takes.
pub struct Turn<T: Told> {
    pub(crate) table: Table<Option<T>, View<T::Entry>, (u32, Snapshot<T>), Law, Global>,
    ghost counts: { (table.shared.table_id.words ≡ 2) × (table.shared.table_id.slots ≡ 1) },
    ghost some: { 0 < table.shared.key.0 },
}
