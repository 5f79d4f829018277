//! The cells.
use crate::entry::Start;
use crate::rule::{Known, Runs};
use atomic_table::Table;
use std::alloc::Global;
use std::marker::Model;

/// Cells, each with a turn word and a slot. Contracts see which table they are, and what they opened with.
#[derive(Drop)]
pub struct Cells<T> {
    pub(crate) table: Table<Option<T>, Known<T>, Start, Runs, Global>,
    pub(crate) capacity: u32,
}

impl<T> Model for Cells<T> {
    ghost use Rattle.std.specs.Prelude.{◌≡◌, ◌<◌};
    ghost use Rattle.tq_cells.specs.Seen.{CellsView};

    ghost Value = { CellsView };

    ghost view = { λ c. record { table = c.table.shared.table_id; start = c.table.shared.key } };

    ghost invariant = { λ c. (c.table.shared.table_id.words ≡ c.capacity) × (c.table.shared.table_id.slots ≡ c.capacity) × (c.table.shared.key.capacity ≡ c.capacity) × (0 < c.capacity) × (c.capacity < 65537) };
}
