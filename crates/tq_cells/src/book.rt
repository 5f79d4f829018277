//! What closed cells were.
use crate::entry::Start;
use crate::rule::{Known, Place, Runs};
use atomic_table::Table;
use std::alloc::Global;
use std::marker::Model;

/// What closed cells were. Contracts see what they opened with, and their whole log. Items that are left are dropped with the book.
#[derive(Drop)]
pub struct CellBook<T> {
    pub(crate) table: Table<Option<T>, Known<T>, Start, Runs, Global>,
    pub(crate) place: Place<T>,
}

impl<T> Model for CellBook<T> {
    ghost use Rattle.tq_cells.specs.Laws.{IsExact};
    ghost use Rattle.tq_cells.specs.Seen.{CellLog};
    ghost use Rattle.tq_cells.specs.Seats.{shown_log};

    ghost Value = { CellLog T };

    ghost view = { λ b. shown_log b.place.me.0 };

    ghost invariant = { λ b. IsExact (shown_log b.place.me.0).start (shown_log b.place.me.0).log };
}
