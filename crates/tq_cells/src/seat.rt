//! The seats of cells.
use crate::rule::Place;
use std::marker::Model;

/// A seat, by which one thread at a time puts and takes. Contracts see its cells, its number there, and the log that it has seen.
#[derive(Drop)]
pub struct CellSeat<T> {
    pub(crate) place: Place<T>,
    pub(crate) number: u32,
}

impl<T> Model for CellSeat<T> {
    ghost use Rattle.std.specs.Prelude.{◌≡◌, None, []};
    ghost use Rattle.tq_cells.specs.Rule.{IsSeat};
    ghost use Rattle.tq_cells.specs.Seen.{SeatView};
    ghost use Rattle.tq_cells.specs.Seats.{shown};

    ghost Value = { SeatView T };

    ghost view = { λ s. shown s.place.table_id s.number s.place.me.0 };

    ghost invariant = { λ s. IsSeat s.number None s.place.me.0 × (s.place.me.1 ≡ []) };
}
