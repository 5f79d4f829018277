//! The table.

ghost use Rattle.std.specs.Prelude.{◌≡◌};

use crate::rule::{Known, Runs};
use atomic_table::Table;
use fn_core::Start;
use fn_layout::Shape;
use std::alloc::Global;
use std::marker::Model;

/// A funnel on shared words. Contracts see which table it is, and what it opened with.
#[derive(Drop)]
pub struct FunnelTable {
    pub(crate) table: Table<(), Known, Start, Runs, Global>,
    pub(crate) shape: Shape,
    pub(crate) opening: u64,
    pub(crate) cap: u64,
}

impl Model for FunnelTable {
    ghost use Rattle.std.specs.Prelude.{◌≡◌};
    ghost use Rattle.fn_layout.specs.Words.{words};
    ghost use Rattle.fn_core.specs.Machine.{IsStart};
    ghost use Rattle.fn_table.specs.Seen.{TableView};

    ghost Value = { TableView };

    ghost view = { λ t. record { table = t.table.shared.table_id; start = t.table.shared.key } };

    ghost invariant = { λ t. (t.table.shared.table_id.words ≡ words t.shape) × (t.table.shared.key.shape ≡ t.shape) × (t.table.shared.key.opening ≡ t.opening) × (t.table.shared.key.cap ≡ t.cap) × IsStart t.table.shared.key × (t.table.shared.table_id.slots ≡ 0) };
}

impl FunnelTable {
    /// The number at which additions stop.
    pub fn cap(&self) -> u64
        ensures { result ≡ self.now.start.cap }
    {
        self.cap
    }

    /// The shape of the funnel.
    pub fn shape(&self) -> Shape
        ensures { result ≡ self.now.start.shape }
    {
        self.shape
    }
}
